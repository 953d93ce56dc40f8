ghost use Rattle.std.specs.Prelude.{◌≡◌, ◌<◌, ◌+◌, ◌^◌, All, IsTrue, map};
ghost use Rattle.can_attempt.specs.Attempts.{IsFaultFree, class_of};
ghost use Rattle.can_bus.specs.Attempted.{transmission_of};
ghost use Rattle.can_bus.specs.News.{fault_posts, frame_posts, outcome_posts};
ghost use Rattle.can_bus.specs.Posts.{restart_posts, auto_restart_posts, error_posts};
ghost use Rattle.can_event.specs.Events.{tried_item};
ghost use Rattle.can_bus.specs.State.{offered, reached};

use crate::attempted::{Attempted, is_posted};
use crate::socket::Socket;
use can_errframe::restart_frame;
use can_event::{Pending, Received, Tried};
use can_frame::{ErrorFrame, Iface, IfaceSet, Item, Moment};
use can_queue::BoundedQueue;

/// Posts an error message frame, if there is one, to a socket of the interface that reports it.
fn post_error<R: BoundedQueue<Received>>(
    socket: &mut Socket<R>,
    moment: Moment,
    error: Option<ErrorFrame>,
)
    requires { socket.old.dropped + 1 < 2 ^ 64 }
    ensures { socket.new ≡ offered (error_posts socket.old.iface moment error) socket.old }
{
    if let Some(error) = error {
        let received = Received {
            item: Item::Error(error),
            from: socket.iface(),
            number: 0,
            moment,
        };
        socket.post(&received, None);
    }
}

/// Posts the tried frame to a socket, if its interface gets the frame; `pending` is the frame as it
/// was queued.
fn post_frame_to<R: BoundedQueue<Received>>(
    socket: &mut Socket<R>,
    tried: &Tried,
    pending: &Pending,
    frame: &Received,
)
    requires small { socket.old.dropped + 1 < 2 ^ 64 }
    requires frame { frame.now ≡ tried_item tried.now }
    ensures { socket.new ≡ reached (frame_posts tried.now pending.now) socket.old }
{
    if is_posted(tried, socket.iface(), pending.loopback) {
        socket.post(frame, Some(pending.socket));
    }
}

/// Posts the tried frame to every socket whose interface gets it; `pending` is the frame as it was
/// queued.
fn post_frame<R: BoundedQueue<Received>>(
    sockets: &mut [Socket<R>],
    tried: &Tried,
    pending: &Pending,
)
    requires { All (λ v. v.dropped + 1 < 2 ^ 64) sockets.old }
    ensures { sockets.new ≡ map (reached (frame_posts tried.now pending.now)) sockets.old }
{
    let frame = tried.received();
    for socket in sockets.iter_mut() {
        post_frame_to(socket, tried, pending, &frame);
    }
}

/// Posts the error message frames of an attempt to a socket: for its fault, if the socket's
/// interface reports faults, and for a change of state.
fn post_faults_to<R: BoundedQueue<Received>>(
    socket: &mut Socket<R>,
    attempted: &Attempted,
    reporting: IfaceSet,
)
    requires { socket.old.dropped + 2 < 2 ^ 64 }
    ensures { socket.new ≡ reached (fault_posts reporting attempted.now) socket.old }
{
    let iface = socket.iface();
    let moment = attempted.tried().moment;
    if reporting.contains(iface) {
        post_error(socket, moment, attempted.fault_at(iface));
    }
    post_error(socket, moment, attempted.state_change_at(iface));
}

/// Posts the error message frames of an attempt to every socket.
#[inline(never)]
fn post_faults<R: BoundedQueue<Received>>(
    sockets: &mut [Socket<R>],
    attempted: &Attempted,
    reporting: IfaceSet,
)
    requires { All (λ v. v.dropped + 2 < 2 ^ 64) sockets.old }
    ensures { sockets.new ≡ map (reached (fault_posts reporting attempted.now)) sockets.old }
{
    for socket in sockets.iter_mut() {
        post_faults_to(socket, attempted, reporting);
    }
}

/// Posts all items of an attempt to every socket; `pending` is the frame as it was queued. If
/// `is_fault_free` holds, it does not look for faults.
pub fn post_attempt<R: BoundedQueue<Received>>(
    sockets: &mut [Socket<R>],
    attempted: &Attempted,
    pending: &Pending,
    reporting: IfaceSet,
    is_fault_free: bool,
)
    requires class { attempted.now.tried.class ≡ class_of (transmission_of attempted.now) }
    requires calm { IsTrue is_fault_free →
        IsFaultFree attempted.now.nodes attempted.now.verdict attempted.now.ack }
    requires dropped { All (λ v. v.dropped + 3 < 2 ^ 64) sockets.old }
    ensures { sockets.new
        ≡ map (reached (outcome_posts reporting attempted.now pending.now)) sockets.old }
{
    post_frame(sockets, attempted.tried(), pending);
    if !is_fault_free {
        post_faults(sockets, attempted, reporting);
    }
}

/// Posts the restart of an interface to every socket on it.
pub fn post_restart<R: BoundedQueue<Received>>(
    sockets: &mut [Socket<R>],
    iface: Iface,
    moment: Moment,
)
    requires { All (λ v. v.dropped + 1 < 2 ^ 64) sockets.old }
    ensures { sockets.new ≡ map (reached (restart_posts iface moment)) sockets.old }
{
    post_restarts(sockets, IfaceSet::empty().with(iface), moment)
}

/// Posts a restart to a socket, if the restarted interfaces include the socket's interface.
fn post_restarts_to<R: BoundedQueue<Received>>(
    socket: &mut Socket<R>,
    restarted: IfaceSet,
    moment: Moment,
)
    requires { socket.old.dropped + 1 < 2 ^ 64 }
    ensures { socket.new ≡ reached (auto_restart_posts restarted moment) socket.old }
{
    if restarted.contains(socket.iface()) {
        post_error(socket, moment, Some(restart_frame()));
    }
}

/// Posts the restarts that an attempt made to every socket of the restarted interfaces.
pub fn post_restarts<R: BoundedQueue<Received>>(
    sockets: &mut [Socket<R>],
    restarted: IfaceSet,
    moment: Moment,
)
    requires { All (λ v. v.dropped + 1 < 2 ^ 64) sockets.old }
    ensures { sockets.new ≡ map (reached (auto_restart_posts restarted moment)) sockets.old }
{
    for socket in sockets.iter_mut() {
        post_restarts_to(socket, restarted, moment);
    }
}
