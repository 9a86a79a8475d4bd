// A record with a known answer, for examples and tests.
ghost use Rattle.std.specs.Prelude.{◌≡◌};
ghost use Rattle.record.specs.Examples.{KnownAnswers, KnownParts, record_a};

// Record A: one field 185, with two blank indicators and $j abc, in 46 bytes.
pub fn record_a() -> &'static [u8; 46]
    ensures bytes { result.now ≡ record_a }
    ensures known { KnownAnswers }
    ensures parts { KnownParts }
{
    b"00046nz   2200037n  4500185000800000\x1e  \x1fjabc\x1e\x1d"
}
