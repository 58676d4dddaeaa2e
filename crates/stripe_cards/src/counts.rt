//! How many cards have a touch, by classes of fileids.

ghost use Rattle.std.specs.Prelude.{◌≡◌, ◌%◌, ◌<◌, replicate};
ghost use Rattle.stripe_cards.specs.Counts.{ChangesCount, one_more, one_less};

/// For each class of fileids how many cards have a touch. 255 stands for 255 or more, and stays.
pub type TouchCounts = [u8; 256];

/// No touch.
pub fn no_touches() -> TouchCounts
    ensures { result ≡ replicate 256 0 }
{
    [0; 256]
}

/// The class of a fileid.
pub fn class_of(fileid: u64) -> usize
    ensures class { result ≡ fileid % 256 }
    ensures within { result < 256 }
{
    (fileid % 256) as usize
}

/// Counts a touch more in a class.
pub fn count_up(counts: &mut TouchCounts, class: usize)
    requires { class < 256 }
    ensures { ChangesCount one_more class counts.old counts.new }
{
    counts[class] = counts[class].saturating_add(1);
}

/// Counts a touch less in a class.
pub fn count_down(counts: &mut TouchCounts, class: usize)
    requires { class < 256 }
    ensures { ChangesCount one_less class counts.old counts.new }
{
    if counts[class] < u8::MAX {
        counts[class] = counts[class].saturating_sub(1);
    }
}
