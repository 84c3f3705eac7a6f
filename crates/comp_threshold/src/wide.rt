//! How wide a leaf is.

ghost use Rattle.std.specs.Prelude.{◌≡◌};
ghost use Rattle.comp_threshold.specs.ThresholdLeaf.{threshold_width};

/// The greatest size of a coefficient, or that of the bound plus 1 if that is greater. Allocates nothing.
pub fn width(coefs: &[i64], bound: i64) -> u64
    ensures { result ≡ threshold_width coefs.now bound }
{
    let mut s = bound.unsigned_abs() + 1;
    for a in coefs {
        let size = a.unsigned_abs();
        if s < size {
            s = size;
        }
    }
    s
}
