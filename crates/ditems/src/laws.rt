// Laws of time items, readings and moves.
ghost use Rattle.ditems.specs.GroupLaws.{GroupLaws};
ghost use Rattle.ditems.specs.MoveLaws.{MovesAsWritten};
ghost use Rattle.ditems.specs.TimeLaws.{TimeLaws};

pub fn time_laws()
    ensures { TimeLaws }
{}

pub fn group_laws()
    ensures { GroupLaws }
{}

pub fn move_laws()
    ensures written { MovesAsWritten }
{}
