//! Tests of the members' draws: words against PCG's reference, numbers below a bound and shuffles against `rand`.
use base::MemberId;
use rand::seq::SliceRandom;
use rand_core::Rng;
use rand_pcg::Lcg64Xsh32;
use std::process::Abort;
use streams::Stream;

/// The first words of PCG's C code for PCG32 at state 42 and stream 54.
const REFERENCE: [u32; 6] = [
    0xa15c02b7, 0x7b47f409, 0xba1d3330, 0x83d2f293, 0xbfa4784b, 0xcbed606e,
];

fn reference() -> Stream {
    Stream::of(42, MemberId(54))
}

/// That the next numbers of the reference stream below a bound are these.
fn expect_numbers(rt: &impl Abort, bound: u32, wanted: &[u32]) {
    assert!(rt; bound >= 1);
    let mut stream = reference();
    for number in wanted {
        assert!(rt; stream.below(bound) == *number, "below {bound}");
    }
}

// A number below 2^31 is its word without the last bit.
#[test]
fn a_stream_has_the_reference_words(rt: HostRuntime) {
    let mut generator = Lcg64Xsh32::new(42, 54);
    let mut stream = reference();
    for word in REFERENCE {
        assert!(rt; generator.next_u32() == word);
        assert!(rt; stream.below(1 << 31) == word >> 1);
    }
}

/// That the streams' first numbers are these.
fn expect_all(rt: &impl Abort, table: &[(u32, &[u32])]) {
    for (bound, wanted) in table {
        expect_numbers(rt, *bound, wanted);
    }
}

/// Where the digits past the point could carry, a second word decides: the second number below 2^31 + 1 takes
/// two words, and each number below 2^32 - 1.
const CARRIES: &[(u32, &[u32])] = &[
    (
        2_147_483_649,
        &[1_353_580_892, 1_034_156_549, 1_105_819_978, 1_607_613_478],
    ),
    (u32::MAX, &[2_707_161_782, 3_122_475_823, 3_215_226_955]),
];

#[test]
fn a_second_word_decides_a_carry(rt: HostRuntime) {
    expect_all(&rt, CARRIES);
}

/// So many members in their order.
fn thirteen() -> [MemberId; 13] {
    [0u16, 1, 2, 3, 4, 5, 6, 7, 8, 9, 10, 11, 12].map(|number| MemberId(number))
}

/// The same shuffled by `rand`, over PCG32 at a state and a stream.
fn shuffled_by_rand(state: u64, stream: u64) -> [MemberId; 13] {
    let mut items = thirteen();
    items.shuffle(&mut Lcg64Xsh32::new(state, stream));
    items
}

// A stream shuffles as `rand` does, whose order is the one that it publishes among its tests of stable values.
#[test]
fn a_shuffle_is_the_published_order(rt: HostRuntime) {
    let wanted = [5u16, 11, 0, 8, 7, 12, 6, 4, 9, 3, 1, 2, 10].map(|number| MemberId(number));
    assert!(rt; shuffled_by_rand(414, 11634580027462260723) == wanted);
    let mut items = thirteen();
    reference().shuffle(&mut items);
    assert!(rt; items == shuffled_by_rand(42, 54));
}
