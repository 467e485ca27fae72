// Sets of numbers below 16, as the bits of one number: the pages of a space, or processors.
ghost use Rattle.std.specs.Prelude.{◌≡◌, ◌==◌};
ghost use Rattle.std.specs.Int.{bit_at};
ghost use Rattle.sa_base.specs.Pages.{has_page};

/// Whether bit `k` is set.
pub fn has_bit(bits: u16, k: u16) -> bool
    ensures { result ≡ (bit_at bits k == 1) }
{
    k < 16 && (bits >> k) & 1 == 1
}

/// Whether the page is among these, of which bit k says that page k is.
pub fn has_page(pages: u16, page: u16) -> bool
    ensures { result ≡ has_page pages page }
{
    has_bit(pages, page)
}
