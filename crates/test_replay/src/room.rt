// Room for what a program reads and writes.
ghost use Rattle.std.specs.Prelude.{◌≡◌, ℕ, get_or};

// A room of zeros. It is made here, since a proof that meets one of the longer rooms as it is written does not close.
pub fn room<const N: usize>() -> [u8; N]
    ensures { (i : ℕ) → get_or result i 0 ≡ 0 }
{
    [0; N]
}
