//! What a run takes from outside: input bytes and arrivals.

ghost use Rattle.std.specs.Prelude.{◌≡◌, ◌<◌, ◌≤◌, ℕ, List, nat_lt, length, slice_index};
ghost use Rattle.std.specs.List.Sorted.{IsPermutation, IsPartitionPoint};
ghost use Rattle.pic_world.specs.declared.Arrival.{Arrival as AnyArrival};
ghost use Rattle.pic_world.specs.Arrivals.{arriving, flag_bit};
ghost use Rattle.pic_world.specs.Arrivals.{IsRising, IsRising-prop};

use crate::{Arrival, Flag};

/// The bytes that reads of device registers take, in order, and the flags that are set from
/// outside, in order of `t`.
#[derive(Drop)]
pub struct Script {
    pub input: Vec<u8>,
    pub arrivals: Vec<Arrival>,
    pub ghost rising: { IsRising 0 arrivals.items } by { IsRising-prop 0 arrivals.items },
}

impl Script {
    /// A script with these arrivals, which may come in any order.
    pub fn new(input: Vec<u8>, mut arrivals: Vec<Arrival>) -> Script
        ensures input { result.input.items ≡ input.items }
        ensures elements { IsPermutation arrivals.items result.arrivals.items }
        ensures arrivals { (t : ℕ) → arriving result.arrivals.items t ≡ arriving arrivals.items t }
    {
        arrivals.sort_unstable_by_key(|arrival| arrival.t);
        Script { input, arrivals }
    }

    /// The flags that arrive at an index, as a mask.
    #[tactic(auto, using(crate::proofs::Masks::mask_small, crate::proofs::Masks::or_nothing))]
    pub fn mask_at(&self, index: u64) -> u16
        ensures value { result ≡ arriving self.now.arrivals.items index }
        ensures small { result < 2048 }
    {
        let mut rest = not_before(&self.arrivals, index);
        let mut mask = 0;
        while let [arrival, others @ ..] = rest {
            if arrival.t as u64 > index {
                return mask;
            }
            mask |= bit_of(arrival.flag);
            rest = others;
        }
        mask
    }
}

// The arrivals from an index on.
fn not_before(arrivals: &[Arrival], index: u64) -> &[Arrival]
    requires { IsRising 0 arrivals.now }
    ensures rising { IsRising index result.now }
    ensures arriving { arriving result.now index ≡ arriving arrivals.now index }
{
    let first = arrivals.partition_point(
        |arrival: &Arrival| -> bool
            ensures { result ≡ nat_lt arrival.now.t index }
        { (arrival.t as u64) < index },
    );
    &arrivals[first..]
}

fn bit_of(flag: Flag) -> u16
    ensures value { result ≡ flag_bit flag }
    ensures small { result < 2048 }
{
    match flag {
        Flag::Rbif => 1,
        Flag::Intf => 2,
        Flag::Tmr0if => 4,
        Flag::Tmr1if => 8,
        Flag::Tmr2if => 16,
        Flag::Ccp1if => 32,
        Flag::Sspif => 64,
        Flag::Txif => 128,
        Flag::Rcif => 256,
        Flag::Adif => 512,
        Flag::Pspif => 1024,
    }
}

/// The input byte of this number, or 0 past the last one.
pub fn input_at(input: &[u8], number: u64) -> u8
    ensures { result ≡ slice_index input.now number }
{
    if number < input.len() as u64 {
        input[number as usize]
    } else {
        0
    }
}

/// The order of arrivals counts for nothing: at each index the same flags arrive.
pub fn arrivals_in_any_order()
    ensures { (given : List AnyArrival) (other : List AnyArrival) → IsPermutation given other → (t : ℕ) → arriving other t ≡ arriving given t }
{}
