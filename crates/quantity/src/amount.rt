// An amount that a record can hold: whole ten-thousandths, below 10^12 in size, and not the -9999 that stands for a missing value.
ghost use Rattle.std.specs.Prelude.{◌≡◌, true};
ghost use Rattle.quantity.specs.Amounts.{holdable};

#[derive(Clone, Copy)]
pub struct Amount {
    pub tenthousandths: i64,
    ghost ok: { holdable tenthousandths ≡ true },
}
