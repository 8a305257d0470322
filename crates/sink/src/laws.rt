// Laws of what is put into a log.
ghost use Rattle.sink.specs.Logs.{TakesIn};

// As many go in as there is room for.
pub fn takes_in<T>()
    ensures { TakesIn T }
{}
