//! From an instance to the next one.

ghost use Rattle.std.specs.Prelude.{◌≡◌, ◌<◌, ◌≤◌, ◌+◌, ◌-◌, ◌^◌, ◌+ℤ◌, ◌<ℤ◌, ℤ, pos, length, unsigned_abs, slice_index_or};
ghost use Rattle.domain.specs.Tables.{cut};
ghost use Rattle.domain.specs.Instances.{counter};
ghost use Rattle.domain.specs.Steps.{turned};

/// The first counters, and zeros in place of the others.
pub fn cut<const D: usize>(at: &[i64; D], places: usize) -> [i64; D]
    requires { D < 7 }
    ensures { result ≡ cut places at.now }
{
    let mut point = *at;
    for place in places..D {
        point[place] = 0;
    }
    point
}

/// The counters in the next turn of the loop inside so many of them.
pub fn turned<const D: usize>(at: &[i64; D], around: usize) -> [i64; D]
    requires few { D < 7 }
    requires inside { around < D }
    requires can { counter at.now around <ℤ pos (2 ^ 63 - 1) }
    ensures { result ≡ turned around at.now }
{
    let mut point = cut(at, around);
    point[around] = at[around] + 1;
    point
}
