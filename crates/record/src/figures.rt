// Figures: numbers written in decimal digits.
ghost use Rattle.std.specs.Prelude.{◌≡◌, ◌+◌, ◌*◌, ◌^◌, ◌<◌, ◌≤◌, length};
ghost use Rattle.record.specs.Figures.{all_digits, figure_told, length_figure, number, part};

use crate::classes::is_digit;
use crate::slices::part_of;

// The length that a record tells in its first five bytes, or none where they are not five digits.
pub fn told_length(bytes: &[u8]) -> Option<usize>
    ensures { result ≡ length_figure bytes.now }
{
    figure_of(bytes.get(..5)?)
}

// The number that the bytes tell, or none where one of them is no digit.
fn figure_of(figure: &[u8]) -> Option<usize>
    requires { length figure.now ≤ 5 }
    ensures { result ≡ figure_told figure.now }
{
    is_figure(figure).then(|| number_of(figure))
}

// The number that so many bytes from this place on tell, or none where one of them is no digit.
pub(crate) fn figure_at(bytes: &[u8], place: usize, size: usize) -> Option<usize>
    requires { size ≤ 5 }
    ensures { result ≡ figure_told (part bytes.now place size) }
{
    figure_of(part_of(bytes, place, size))
}

// Whether every byte is a digit.
fn is_figure(figure: &[u8]) -> bool
    ensures { result ≡ all_digits figure.now }
{
    figure.iter().all(|byte| is_digit(*byte))
}

// The number that the figure stands for.
fn number_of(figure: &[u8]) -> usize
    requires { length figure.now ≤ 5 }
    ensures value { result ≡ number figure.now }
    ensures small { result < 23 * 10 ^ length figure.now }
{
    let mut n: usize = 0;
    for byte in figure {
        n = 10 * n + usize::from(byte.saturating_sub(b'0'));
    }
    n
}

// The number in the figure of this size at this place.
pub(crate) fn number_at(bytes: &[u8], place: usize, size: usize) -> usize
    requires { size ≤ 5 }
    ensures value { result ≡ number (part bytes.now place size) }
    ensures small { result < 23 * 10 ^ size }
{
    number_of(part_of(bytes, place, size))
}
