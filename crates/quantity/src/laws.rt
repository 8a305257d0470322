// Laws of parameter codes.
ghost use Rattle.quantity.specs.CodeLaws.{Alone, Ends, Full, Itself, Means, RowsDiffer, VariableNumbers};

pub fn code_laws()
    ensures full { Full }
    ensures itself { Itself }
    ensures ends { Ends }
    ensures letters { Alone }
    ensures means { Means }
{}

// The table of elements has each pair of letters once, and DV items give exactly the numbers of a variable duration.
pub fn table_laws()
    ensures rows { RowsDiffer }
    ensures variable { VariableNumbers }
{}
