// Laws of what an item does.
ghost use Rattle.messages.specs.ItemLaws.{ItemRefusals, ItemRecords};

// An item is refused by the lowest number that applies to it.
pub fn item_refusals()
    ensures { ItemRefusals }
{}

// What the record of an item carries.
pub fn item_records()
    ensures { ItemRecords }
{}
