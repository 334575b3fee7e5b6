// The four messages: request, acknowledge, downgrade, release. Three are alike: C calls each by its name.
ghost use Rattle.std.specs.Prelude.{false};
ghost use Rattle.locks.specs.declared.Message.TheVariants.{Request, Acknowledge, Downgrade, Release};
ghost use Rattle.message.specs.Messages.{Serves};

use locks::Message;
use serve::Answer;

// Asks for a lock.
pub fn gil_request(
    table: &mut [u8],
    events: &mut [u8],
    client: u64,
    stripe: u64,
    mode: u64,
    first: u64,
    last: u64,
) -> Answer
    ensures { Serves (Request client stripe mode first last false) table.old events.old result table.new events.new }
{
    let m = Message::Request {
        client,
        stripe,
        mode,
        first,
        last,
        marked: false,
    };
    message::call(table, events, m)
}

// Replies to a revocation.
pub fn gil_acknowledge(table: &mut [u8], events: &mut [u8], client: u64, handle: u64) -> Answer
    ensures { Serves (Acknowledge client handle) table.old events.old result table.new events.new }
{
    message::call(table, events, Message::Acknowledge { client, handle })
}

// Makes a canceling BW or PW lock an NBW lock.
pub fn gil_downgrade(table: &mut [u8], events: &mut [u8], client: u64, handle: u64) -> Answer
    ensures { Serves (Downgrade client handle) table.old events.old result table.new events.new }
{
    message::call(table, events, Message::Downgrade { client, handle })
}

// Gives a lock back, or withdraws a waiting request.
pub fn gil_release(table: &mut [u8], events: &mut [u8], client: u64, handle: u64) -> Answer
    ensures { Serves (Release client handle) table.old events.old result table.new events.new }
{
    message::call(table, events, Message::Release { client, handle })
}
