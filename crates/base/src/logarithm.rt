//! Decimal logarithms of the cluster's size in whole numbers: digits limit how often an update is sent, and
//! thousandths scale how long a suspicion lasts.
ghost use Rattle.std.specs.Prelude.{◌≡◌, ◌-◌, ◌≤◌};
ghost use Rattle.base.specs.Logarithm.{digit_count, leading_digit, log_of, leading_digits, tenth_log_of, fine_log_of, three_leading_digits, tenths_further, close_log_of};

/// The decimal logarithms of 1 to 10, in thousandths, rounded to the nearest.
const THOUSANDTHS: [u32; 10] = [0, 301, 477, 602, 699, 778, 845, 903, 954, 1000];

/// A number's leading decimal digit, and how many digits follow it.
#[derive(Clone, Copy)]
struct Decimals {
    leading: u32,
    following: u32,
}

fn decimals_of(n: u32) -> Decimals
    requires { 1 ≤ n }
    ensures leading { result.leading ≡ leading_digit n }
    ensures following { result.following ≡ digit_count n - 1 }
    ensures nonzero { 1 ≤ result.leading }
    ensures single { result.leading ≤ 9 }
    ensures at_most_9 { result.following ≤ 9 }
{
    let mut leading = n;
    let mut following = 0;
    while leading >= 10 {
        leading /= 10;
        following += 1;
    }
    Decimals { leading, following }
}

/// How many decimal digits a number has.
pub fn digits(n: u32) -> u32
    requires { 1 ≤ n }
    ensures { result ≡ digit_count n }
{
    decimals_of(n).following + 1
}

/// About a thousand times a number's decimal logarithm: exact at powers of ten, and between them it
/// goes by the leading digit alone.
pub fn log_thousandths(n: u32) -> u32
    requires { 1 ≤ n }
    ensures { result ≡ log_of n }
{
    let Decimals { leading, following } = decimals_of(n);
    1000 * following + THOUSANDTHS[(leading - 1) as usize]
}

/// The decimal logarithms of 1.0 to 9.9, in thousandths, rounded down.
const TENTHS: [u32; 90] = [
    0, 41, 79, 113, 146, 176, 204, 230, 255, 278, 301, 322, 342, 361, 380, 397, 414, 431, 447, 462,
    477, 491, 505, 518, 531, 544, 556, 568, 579, 591, 602, 612, 623, 633, 643, 653, 662, 672, 681,
    690, 698, 707, 716, 724, 732, 740, 748, 755, 763, 770, 778, 785, 792, 799, 806, 812, 819, 826,
    832, 838, 845, 851, 857, 863, 869, 875, 880, 886, 892, 897, 903, 908, 913, 919, 924, 929, 934,
    939, 944, 949, 954, 959, 963, 968, 973, 977, 982, 986, 991, 995,
];

/// A number's two or three leading decimal digits as a number, and how many digits follow the first.
#[derive(Clone, Copy)]
struct Leading {
    digits: u32,
    following: u32,
}

fn leading_of(n: u32) -> Leading
    requires { 1 ≤ n }
    ensures digits { result.digits ≡ leading_digits n }
    ensures following { result.following ≡ digit_count n - 1 }
    ensures at_least_10 { 10 ≤ result.digits }
    ensures at_most_99 { result.digits ≤ 99 }
    ensures at_most_9 { result.following ≤ 9 }
{
    let mut digits = u64::from(n) * 10;
    let mut following = 0;
    while digits >= 100 {
        digits /= 10;
        following += 1;
    }
    Leading {
        digits: digits as u32,
        following,
    }
}

/// A thousand times the decimal logarithm of a tenth of a number of two digits, rounded down.
fn tenth_log(digits: u32) -> u32
    requires at_least_10 { 10 ≤ digits }
    requires at_most_99 { digits ≤ 99 }
    ensures value { result ≡ tenth_log_of digits }
    ensures small { result ≤ 1000 }
{
    TENTHS[(digits - 10) as usize]
}

/// About a thousand times a number's decimal logarithm: exact at powers of ten, and between them it
/// goes by the two leading digits, rounded down.
pub fn fine_log_thousandths(n: u32) -> u32
    requires { 1 ≤ n }
    ensures { result ≡ fine_log_of n }
{
    let Leading { digits, following } = leading_of(n);
    1000 * following + tenth_log(digits)
}

fn three_leading_of(n: u32) -> Leading
    requires { 1 ≤ n }
    ensures digits { result.digits ≡ three_leading_digits n }
    ensures following { result.following ≡ digit_count n - 1 }
    ensures at_least_100 { 100 ≤ result.digits }
    ensures at_most_999 { result.digits ≤ 999 }
    ensures at_most_9 { result.following ≤ 9 }
{
    let mut digits = u64::from(n) * 100;
    let mut following = 0;
    while digits >= 1000 {
        digits /= 10;
        following += 1;
    }
    Leading {
        digits: digits as u32,
        following,
    }
}

/// The logarithm of a tenth of a number of two digits, or of 100, in thousandths, rounded down.
fn tenth_log_to_100(digits: u32) -> u32
    requires at_least_10 { 10 ≤ digits }
    requires at_most_100 { digits ≤ 100 }
    ensures value { result ≡ tenth_log_of digits }
    ensures small { result ≤ 1000 }
{
    if digits == 100 {
        return 1000;
    }
    tenth_log(digits)
}

/// The logarithm at so many tenths of the way from a number of two digits to the next.
fn tenths_further(digits: u32, tenths: u32) -> u32
    requires at_least_10 { 10 ≤ digits }
    requires at_most_99 { digits ≤ 99 }
    requires few { tenths ≤ 9 }
    ensures value { result ≡ tenths_further digits tenths }
    ensures small { result ≤ 10000 }
{
    let here = tenth_log(digits);
    let way = tenth_log_to_100(digits + 1).saturating_sub(here);
    here + way * tenths / 10
}

/// About a thousand times a number's decimal logarithm, closer than `fine_log_thousandths` from 100 on:
/// the third digit says how far it is on the way from the two leading digits to the next two.
pub fn close_log_thousandths(n: u32) -> u32
    requires { 1 ≤ n }
    ensures { result ≡ close_log_of n }
{
    let Leading { digits, following } = three_leading_of(n);
    1000 * following + tenths_further(digits / 10, digits % 10)
}

#[cfg(test)]
mod tests {
    use super::{close_log_thousandths, digits, fine_log_thousandths, log_thousandths};

    #[test]
    fn logarithms_are_exact_at_powers_of_ten(rt: HostRuntime) {
        for (n, wanted) in [(1, 0), (10, 1000), (100, 2000), (1000, 3000)] {
            assert_eq!(rt; log_thousandths(n), wanted, "of {n}");
        }
    }

    #[test]
    fn logarithms_go_by_the_leading_digit(rt: HostRuntime) {
        for (n, wanted) in [(9, 954), (99, 1954), (350, 2477), (999, 2954), (4096, 3602)] {
            assert_eq!(rt; log_thousandths(n), wanted, "of {n}");
        }
        assert_eq!(rt; log_thousandths(u32::MAX), 9602);
    }

    #[test]
    fn finer_logarithms_go_by_two_digits(rt: HostRuntime) {
        for (n, wanted) in [
            (1, 0),
            (2, 301),
            (19, 1278),
            (109, 2000),
            (99, 1995),
            (4096, 3602),
        ] {
            assert_eq!(rt; fine_log_thousandths(n), wanted, "of {n}");
        }
    }

    #[test]
    fn closer_logarithms_go_by_three_digits(rt: HostRuntime) {
        for (n, wanted) in [(19, 1278), (128, 2106), (999, 2999), (16384, 4211)] {
            assert_eq!(rt; close_log_thousandths(n), wanted, "of {n}");
        }
    }

    #[test]
    fn digits_are_counted(rt: HostRuntime) {
        for (n, wanted) in [(1, 1), (9, 1), (10, 2), (999, 3), (1000, 4), (u32::MAX, 10)] {
            assert_eq!(rt; digits(n), wanted, "of {n}");
        }
    }
}
