//! The laws of terms.

ghost use Rattle.value_terms.specs.Samples.{Samples};
ghost use Rattle.value_terms.specs.Laws.{IsByte, IsBit, OneForm, OneNormalForm, Sums, Opposites, Negated, Carries, Comparisons, Choices, Bits, Quotients, Masks, Unions, Exclusives, Puts, Unmentioned};

/// Each term's value is a byte, and that of a bit is 0 or 1.
#[tactic(auto, using(crate::proofs::SumLaws::small, crate::proofs::SumLaws::bit_small))]
pub fn values_are_bytes()
    ensures byte { IsByte }
    ensures bit { IsBit }
{}

/// Terms of one form, or of one normal form, have one value.
#[tactic(auto, using(crate::proofs::Equal::same_term_law, crate::proofs::PutLaws::same_value_law))]
pub fn forms_have_values()
    ensures form { OneForm }
    ensures normal { OneNormalForm }
{}

/// Sums and carries.
#[tactic(auto, using(crate::proofs::SumLaws::sum_law, crate::proofs::SumLaws::opposite_law, crate::proofs::Whole::negated_bit, crate::proofs::CarryLaws::carry_law))]
pub fn sums_have_values()
    ensures sums { Sums }
    ensures opposites { Opposites }
    ensures negated { Negated }
    ensures carries { Carries }
{}

/// Comparisons and choices.
#[tactic(auto, using(crate::proofs::BitLaws::same_law, crate::proofs::BitLaws::choice_law))]
pub fn comparisons_have_values()
    ensures comparisons { Comparisons }
    ensures choices { Choices }
{}

/// Single bits, quotients, and what is done bit by bit.
#[tactic(auto, using(crate::proofs::BitLaws::bit_law, crate::proofs::BitLaws::quotient_law, crate::proofs::Whole::masks, crate::proofs::Whole::unions, crate::proofs::Whole::exclusives))]
pub fn bits_have_values()
    ensures bits { Bits }
    ensures quotients { Quotients }
    ensures masks { Masks }
    ensures unions { Unions }
    ensures exclusives { Exclusives }
{}

/// Terms in the place of atoms.
#[tactic(auto, using(crate::proofs::PutLaws::put_law, crate::proofs::PutLaws::unmentioned_law))]
pub fn terms_are_put()
    ensures puts { Puts }
    ensures unmentioned { Unmentioned }
{}

/// What small codes say in different ways is one form.
#[tactic(auto, using(crate::proofs::Examples::samples))]
pub fn forms_are_normal()
    ensures { Samples }
{}
