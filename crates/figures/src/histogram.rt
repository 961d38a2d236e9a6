//! How times spread, counted in bins.
ghost use Rattle.std.specs.Prelude.{◌≡◌, ◌+◌, ◌<◌, ◌/◌, ◌^◌, All, max, slice_index, slice_set};
ghost use Rattle.std.specs.List.{reduce};
ghost use Rattle.std.specs.Option.{unwrap_or};
ghost use Rattle.figures.specs.Histograms.{bins_of, bin_width, IsHistogramOf};

/// How times spread: how many of them fall into each of 20 bins of one width, which begin at 0 and
/// follow one another. None is past the last bin.
#[derive(Clone, Copy, Debug, PartialEq, Eq)]
pub struct Histogram {
    /// How wide a bin is, in ticks: 1 where there are no times, else the least width by which the
    /// greatest time falls into a bin.
    pub width: u64,
    /// How many times fall into each bin. One of a bin's two ends begins the next bin.
    pub bins: [u64; 20],
}

/// How these times spread, in whatever order they stand.
pub(crate) fn histogram_of(times: &[u64]) -> Histogram
    ensures { IsHistogramOf result times.now }
{
    let width = bin_width(times);
    let bins = counted(times, width);
    Histogram { width, bins }
}

/// How wide a bin is, so that each of these times falls into one.
fn bin_width(times: &[u64]) -> u64
    ensures width { result ≡ bin_width times.now }
    ensures some { 0 < result }
    ensures within { All (λ time. time / result < 20) times.now }
{
    greatest(times).unwrap_or(0) / 20 + 1
}

/// The greatest of these times, where there are some.
fn greatest(times: &[u64]) -> Option<u64>
    ensures { result ≡ reduce max times.now }
{
    times.iter().map(|time| *time).max()
}

/// How many of these times fall into each bin of this width.
fn counted(times: &[u64], width: u64) -> [u64; 20]
    requires some { 0 < width }
    requires within { All (λ time. time / width < 20) times.now }
    ensures { result ≡ bins_of width times.now }
{
    let mut bins = [0; 20];
    for time in times {
        raise(&mut bins, (*time / width) as usize);
    }
    bins
}

/// Counts one time more in a bin.
fn raise(bins: &mut [u64; 20], place: usize)
    requires place { place < 20 }
    requires by_one { slice_index bins.old place < 2 ^ 63 }
    ensures { bins.new ≡ slice_set bins.old place (slice_index bins.old place + 1) }
{
    bins[place] += 1;
}
