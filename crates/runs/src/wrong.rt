// Lists that are wrong, to see that it is reported.

// Cases that the decoders agree on, one told with another value, and one not told at all.
pub const TOLD_WRONGLY: &str = "\
=== 20240320 800 told with another value
.A KLMO3 0310 Z HG 2
---
KLMO3 20240310120000 - HGIRZZZ 0000 3.0000 Z 0 0 -
=== 20240320 800 not told
.A KLMO3 0310 Z HG 2
";

// A text that comes to nothing, on the last day under which any text is read.
pub const LAST_YEAR: &str = "\
=== 20991231 800 an empty text in the last year
---
";
