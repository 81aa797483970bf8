//! Whether two events, or two replies, are equal in every part.
ghost use Rattle.std.specs.Prelude.{◌≡◌, ◌↔◌, IsTrue};

use crate::event::Event;
use crate::reply::Reply;
use gate_bytes::is_same;

/// Whether two events are equal.
pub fn is_same_event(event: &Event, other: &Event) -> bool
    ensures { IsTrue result ↔ (event.now ≡ other.now) }
{
    is_same(event, other)
}

/// Whether two replies are equal.
pub fn is_same_reply(reply: &Reply, other: &Reply) -> bool
    ensures { IsTrue result ↔ (reply.now ≡ other.now) }
{
    is_same(reply, other)
}
