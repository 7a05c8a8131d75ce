// Which line of the other trace a line pairs with, by datagram numbers alone (rule 22.10).
ghost use Rattle.std.specs.Prelude.{◌≡◌};
ghost use Rattle.trace_compare_code.specs.Numbers.{often, KthPlace};

// How often a number occurs in a list.
pub fn count_of(numbers: &[u16], number: u16) -> usize
    ensures { result ≡ often number numbers.now }
{
    let mut count = 0;
    for here in numbers {
        if *here == number {
            count += 1;
        }
    }
    count
}

// The place of the number's occurrence that k others precede; the length of the list if there is none.
pub fn find_kth(numbers: &[u16], number: u16, k: usize) -> usize
    ensures { KthPlace numbers.now number k result }
{
    let mut left = k;
    for (j, here) in numbers.iter().enumerate() {
        if *here == number {
            if left == 0 {
                return j;
            }
            left -= 1;
        }
    }
    numbers.len()
}
