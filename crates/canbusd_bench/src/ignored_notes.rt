//! Writes notes on ignored input after a complete run.
use can_session::{IgnoredInput, SessionNumber};
use std::io::Write;

/// Writes a note on each session that received an unfinished message or bytes outside messages.
pub fn tell_ignored<E: Write>(ignored: &IgnoredInput, errors: &mut E) {
    for number in 1..65_u8 {
        if let Some(session) = SessionNumber::new(number) {
            tell_session(ignored, session, errors);
        }
    }
}

fn tell_session<E: Write>(ignored: &IgnoredInput, session: SessionNumber, errors: &mut E) {
    let number = session.number();
    if ignored.has_outside(session) {
        let _ = writeln!(
            errors,
            "note: session {number}: bytes outside < and > were skipped"
        );
    }
    if ignored.has_begun(session) {
        let _ = writeln!(errors, "note: session {number}: the last message has no >");
    }
}
