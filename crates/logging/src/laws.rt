// Laws of items that are read one after the other.
ghost use Rattle.logging.specs.Steps.{StepsTimed};
ghost use Rattle.logging.specs.Walks.{ItemsCarry};

// Each record and each refusal is that of one item, as far as the items before it have brought the message.
pub fn records_of_items()
    ensures { ItemsCarry }
{}

// Each step has its time by its own number.
pub fn times_of_steps()
    ensures { StepsTimed }
{}
