// Laws of the terms and of observation times.
ghost use Rattle.terms.specs.StepTimes.{StepTimes};
ghost use Rattle.terms.specs.TermLaws.{TermLaws};

pub fn term_laws()
    ensures { TermLaws }
{}

// How far apart the steps of a series lie.
pub fn step_times()
    ensures { StepTimes }
{}
