ghost use Rattle.std.specs.Prelude.{◌≡◌, ◌++◌, OnOk};
ghost use Rattle.can_filter.specs.Passing.{wants};
ghost use Rattle.can_bus.specs.Posts.{sender_in, data_posts, error_posts, attempt_posts, restart_posts, auto_restart_posts, is_own};
ghost use Rattle.can_bus.specs.Queues.{passing};
ghost use Rattle.can_event.specs.declared.event.Event.TheVariants as event;
ghost use Rattle.can_event.specs.declared.attempt.Attempt.TheVariants as attempt;
ghost use Rattle.can_event.specs.declared.reply.Reply.TheVariants as reply;
ghost use Rattle.can_bus.specs.Attempted.{transmission_of};
ghost use Rattle.can_event.specs.Replies.{entry_of};
ghost use Rattle.can_audit.specs.Histories.{ReturnsList};
ghost use Rattle.can_audit.specs.inner.Posted.{ReturnsPosts};

use crate::counters::{judgement_of, nodes_of};
use crate::transmit::{frame_at, sent_by};
use can_bus::{
    Attempt, Attempted, BusConfig, Entry, Event, Pending, Received, Reply, SocketId, Tried,
};
use can_errframe::restart_frame;
use can_fault::Verdict;
use can_filter::{FilterSet, Options, wants};
use can_frame::{ErrorFrame, Iface, IfaceSet, Item, Moment};
use std::alloc::{AllocError, Global};
use std::marker::Model;

// Computes the items that an entry posts to the sockets of an interface.

/// An item for the sockets of an interface, and the number of the socket that sent it.
#[derive(Debug, Clone, Copy)]
pub struct Post {
    received: Received,
    sender: Option<u32>,
}

impl Model for Post {
    ghost use Rattle.can_bus.specs.Posts.{Post};

    ghost Value = { Post };

    ghost view = { λ p. record { received = p.received; sender = p.sender } };

    ghost inverse = { λ v. record { received = v.received; sender = v.sender } };
}

/// Returns the number of the socket that sent a pending frame, if there is a pending frame.
fn sender_in(pending: &Option<Pending>) -> Option<u32>
    ensures { result ≡ sender_in pending.now }
{
    match pending {
        Some(pending) => Some(pending.socket.0),
        None => None,
    }
}

/// Adds the frame that was tried, if the interface posts this frame to its sockets.
fn add_frame_post(
    posts: &mut Vec<Post>,
    attempted: &Attempted,
    pending: &Option<Pending>,
    iface: Iface,
) -> Result<(), AllocError>
    ensures { OnOk result (posts.new.items ≡ posts.old.items ++
        data_posts iface attempted.now.tried pending.now) }
{
    let sender = sender_in(pending);
    if attempted.is_posted(iface, *pending) {
        let tried = attempted.tried();
        let received = Received {
            item: Item::Data(tried.frame),
            from: tried.winner,
            number: tried.number,
            moment: tried.moment,
        };
        posts.push(Post { received, sender })?;
    }
    Ok(())
}

/// Adds an error message frame from the interface, if there is one.
fn put_error(
    posts: &mut Vec<Post>,
    iface: Iface,
    moment: Moment,
    error: Option<ErrorFrame>,
) -> Result<(), AllocError>
    ensures { OnOk result (posts.new.items ≡ posts.old.items ++ error_posts iface moment error) }
{
    if let Some(error) = error {
        let received = Received {
            item: Item::Error(error),
            from: iface,
            number: 0,
            moment,
        };
        posts.push(Post {
            received,
            sender: None,
        })?;
    }
    Ok(())
}

/// Returns the items that an attempt posts to the sockets of an interface, in order.
fn attempt_posts(
    alloc: Global,
    reporting: IfaceSet,
    attempted: &Attempted,
    pending: Option<Pending>,
    iface: Iface,
) -> Result<Vec<Post>, AllocError>
    ensures { ReturnsList result
        (attempt_posts reporting (transmission_of attempted.now)
        attempted.now.tried pending iface) }
{
    let moment = attempted.tried().moment;
    let mut posts = Vec::new(alloc);
    add_frame_post(&mut posts, attempted, &pending, iface)?;
    if reporting.contains(iface) {
        put_error(&mut posts, iface, moment, attempted.fault_at(iface))?;
    }
    put_error(&mut posts, iface, moment, attempted.state_change_at(iface))?;
    Ok(posts)
}

/// Adds the item that an interface posts when an attempt restarts it.
fn put_restarted(
    posts: &mut Vec<Post>,
    restarted: IfaceSet,
    moment: Moment,
    iface: Iface,
) -> Result<(), AllocError>
    ensures { OnOk result (posts.new.items ≡ posts.old.items ++
        auto_restart_posts restarted moment iface) }
{
    if restarted.contains(iface) {
        put_error(posts, iface, moment, Some(restart_frame()))?;
    }
    Ok(())
}

/// Returns the items that an idle attempt posts to the sockets of an interface.
fn idle_posts(
    alloc: Global,
    restarted: IfaceSet,
    moment: Moment,
    iface: Iface,
) -> Result<Vec<Post>, AllocError>
    ensures { ReturnsList result (auto_restart_posts restarted moment iface) }
{
    let mut posts = Vec::new(alloc);
    put_restarted(&mut posts, restarted, moment, iface)?;
    Ok(posts)
}

/// Returns the items that an attempt at this moment posts to the sockets of an interface. The attempt must have tried a frame.
fn tried_posts(
    alloc: Global,
    config: BusConfig,
    past: &[Entry],
    iface: Iface,
    moment: Moment,
    verdict: Verdict,
    tried: &Tried,
) -> Result<Vec<Post>, AllocError>
    ensures { ReturnsPosts config past.now iface
        (entry_of (event.Attempt moment verdict)
        (reply.Attempted (attempt.Tried tried.now))) result }
{
    let nodes = nodes_of(config, past);
    let judgement = match judgement_of(&nodes, tried.winner, verdict, config.ack) {
        Some(judgement) => judgement,
        None => return Ok(Vec::new(alloc)),
    };
    let sent = sent_by(alloc, past, tried.winner)?;
    let pending = frame_at(&sent, tried.number as usize);
    let attempted = Attempted::new(tried, verdict, config.ack, &nodes, &judgement);
    let mut posts = attempt_posts(alloc, config.reporting, &attempted, pending, iface)?;
    put_restarted(&mut posts, tried.restarted, moment, iface)?;
    Ok(posts)
}

/// Returns the items that an attempt at this moment posts to the sockets of an interface.
fn posts_at(
    alloc: Global,
    config: BusConfig,
    past: &[Entry],
    iface: Iface,
    moment: Moment,
    verdict: Verdict,
    attempt: &Attempt,
) -> Result<Vec<Post>, AllocError>
    ensures { ReturnsPosts config past.now iface
        (entry_of (event.Attempt moment verdict) (reply.Attempted attempt.now)) result }
{
    match attempt {
        Attempt::Tried(tried) => tried_posts(alloc, config, past, iface, moment, verdict, tried),
        Attempt::Idle { restarted } => idle_posts(alloc, *restarted, moment, iface),
    }
}

/// Returns the items that a restart posts to the sockets of an interface.
fn restart_posts(
    alloc: Global,
    restarted: Iface,
    moment: Moment,
    iface: Iface,
) -> Result<Vec<Post>, AllocError>
    ensures { ReturnsList result (restart_posts restarted moment iface) }
{
    let mut posts = Vec::new(alloc);
    if iface == restarted {
        put_error(&mut posts, iface, moment, Some(restart_frame()))?;
    }
    Ok(posts)
}

/// Returns the items that an entry posts to the sockets of an interface, in order. The result depends on the entries before it.
pub fn posts_of(
    alloc: Global,
    config: BusConfig,
    past: &[Entry],
    iface: Iface,
    entry: &Entry,
) -> Result<Vec<Post>, AllocError>
    ensures { ReturnsPosts config past.now iface entry.now result }
{
    match &entry.event {
        Event::Attempt(moment, verdict) => match &entry.reply {
            Reply::Attempted(attempt) => {
                posts_at(alloc, config, past, iface, *moment, *verdict, attempt)
            }
            _ => Ok(Vec::new(alloc)),
        },
        Event::Restart(restarted, moment) => match &entry.reply {
            Reply::Done => restart_posts(alloc, *restarted, *moment, iface),
            _ => Ok(Vec::new(alloc)),
        },
        _ => Ok(Vec::new(alloc)),
    }
}

/// Returns whether this socket sent the item of a post.
fn is_own(post: &Post, id: SocketId) -> bool
    ensures { result ≡ is_own post.now.sender id.0 }
{
    match post.sender {
        Some(sender) => sender == id.0,
        None => false,
    }
}

/// Returns the item of a post.
fn item_of(post: &Post) -> Received
    ensures { result ≡ post.now.received }
{
    post.received
}

/// Returns whether a post passes these filters and options of a socket.
fn is_wanted(filters: &FilterSet, options: &Options, id: SocketId, post: &Post) -> bool
    ensures { result ≡
        wants filters.now options.now post.now.received.item (is_own post.now.sender id.0) }
{
    wants(filters, options, &post.received.item, is_own(post, id))
}

/// Returns the items of the posts that pass these filters and options.
pub fn passing_posts(
    alloc: Global,
    filters: &FilterSet,
    options: &Options,
    id: SocketId,
    posts: &[Post],
) -> Result<Vec<Received>, AllocError>
    ensures { ReturnsList result (passing filters.now options.now id.0 posts.now) }
{
    let mut passed = Vec::new(alloc);
    for post in posts {
        if is_wanted(filters, options, id, post) {
            passed.push(item_of(post))?;
        }
    }
    Ok(passed)
}
