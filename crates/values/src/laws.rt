// Laws of values: what a text says, conversion to the nearest, and what is written and reads back.
ghost use Rattle.values.specs.Conversion.{Rounds, RoundsOnly, ConvertsToNearest, ConvertsOnly};
ghost use Rattle.values.specs.Examples.{Examples};
ghost use Rattle.values.specs.Forms.{ReadsWhatIsSaid};
ghost use Rattle.values.specs.Laws.{ReadsBack, ReadsAlone, ReadsEnglish, ReadsBackAny, ReadsAloneAny, Apart, Wide, ShowsAmounts, ShowsMissing};
ghost use Rattle.values.specs.Parts.{SaysWhatItWrites};

pub fn conversion_laws()
    ensures nearest { ConvertsToNearest }
    ensures only { ConvertsOnly }
    ensures rounds { Rounds }
    ensures rounds_only { RoundsOnly }
{}

// What a text says as an amount, and as a value.
pub fn reading_laws()
    ensures amounts { SaysWhatItWrites }
    ensures values { ReadsWhatIsSaid }
{}

pub fn writing_laws()
    ensures back { ReadsBack }
    ensures alone { ReadsAlone }
    ensures english { ReadsEnglish }
    ensures back_any { ReadsBackAny }
    ensures alone_any { ReadsAloneAny }
    ensures apart { Apart }
    ensures wide { Wide }
    ensures shows { ShowsAmounts }
    ensures missing { ShowsMissing }
{}

pub fn value_examples()
    ensures { Examples }
{}
