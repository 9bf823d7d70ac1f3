// A message on its way into a queue.
ghost use Rattle.std.specs.Prelude.{◌≡◌, ◌≤◌, length};
ghost use Rattle.message.specs.Forms.{written};
ghost use Rattle.message.specs.Writing.{said};

use message::{Message, written_length};
use protocol::Kind;

// A message that is owed: what it is written from, and its length as bytes.
#[derive(Clone, Copy)]
pub struct Owed<'a> {
    pub kind: Kind,
    pub message: Message,
    pub body: &'a [u8],
    pub len: usize,
    ghost short: { length body.now ≤ 65535 },
    ghost measured: { len ≡ length (written kind (said message body.now)) },
}

impl<'a> Owed<'a> {
    // A message that is written from these.
    pub fn new(kind: Kind, message: Message, body: &'a [u8]) -> Self
        requires { length body.now ≤ 65535 }
        ensures { written result.kind (said result.message result.body.now)
            ≡ written kind (said message body.now) }
    {
        Self {
            kind,
            message,
            body,
            len: written_length(kind, message, body),
        }
    }
}
