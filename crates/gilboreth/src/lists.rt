// Lists of requests.
ghost use Rattle.list.specs.Lists.{ServesList};

use locks::Item;
use serve::Answer;

// Asks for the locks of a list, in its order. Each answer is stored in its item.
pub fn gil_request_list(table: &mut [u8], events: &mut [u8], items: &mut [Item]) -> Answer
    ensures { ServesList items.old table.old events.old result items.new table.new events.new }
{
    list::serve_list(table, events, items)
}
