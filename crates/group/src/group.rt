// The interface of a sealing group. Its values are elements and scalars; each is known by its number.
ghost use Rattle.std.specs.Prelude.{◌≡◌, ℕ, ◌+◌, ◌-◌, ◌*◌, ◌%◌, ◌<◌, true, ◌==◌};
ghost use Rattle.group.specs.Meaning.{Meaning, Lawful};
ghost use Rattle.group.specs.Reading.{Reads, element_refusal, scalar_refusal, Inverts};

use crate::fault::GroupFault;

pub trait Group {
    const NUMBER: u16;

    // The width of an element code in bytes.
    const W: usize;

    // The width of a scalar code in bytes.
    const S: usize;

    // The constants as clauses name them.
    ghost NUMBER: { ℕ };

    ghost W: { ℕ };

    ghost S: { ℕ };

    type Element: Copy + PartialEq;

    type Scalar: Copy;

    ghost meaning: { Meaning };

    ghost lawful: { Lawful meaning };

    ghost number_of: { Self.Element → ℕ };

    ghost inside: { (x : Self.Element) → meaning.member (number_of x) ≡ true };

    ghost scalar_of: { Self.Scalar → ℕ };

    ghost below: { (x : Self.Scalar) → scalar_of x < meaning.q };

    // Functions and no operators: what each gives is one clause about numbers.
    fn unit() -> Self::Element
        ensures { number_of result ≡ meaning.unit };

    fn g() -> Self::Element
        ensures { number_of result ≡ meaning.g };

    fn h() -> Self::Element
        ensures { number_of result ≡ meaning.h };

    fn product(a: Self::Element, b: Self::Element) -> Self::Element
        ensures { number_of result ≡ meaning.product (number_of a) (number_of b) };

    fn element_number(a: Self::Element) -> u32
        ensures { result ≡ number_of a };

    // The member with this number; a refusal carries the place where its code stands.
    fn element(number: u32, place: usize) -> Result<Self::Element, GroupFault>
        ensures { Reads (element_refusal meaning number place) number_of number result };

    // The member with a number that is known to be a member's: no test is made.
    fn known_element(number: u32) -> Self::Element
        requires { meaning.member number ≡ true }
        ensures { number_of result ≡ number };

    fn scalar_number(x: Self::Scalar) -> u32
        ensures { result ≡ scalar_of x };

    fn scalar(number: u32, place: usize) -> Result<Self::Scalar, GroupFault>
        ensures { Reads (scalar_refusal meaning number place) scalar_of number result };

    fn reduced(n: u32) -> Self::Scalar
        ensures { scalar_of result ≡ n % meaning.q };

    fn add(x: Self::Scalar, y: Self::Scalar) -> Self::Scalar
        ensures { scalar_of result ≡ (scalar_of x + scalar_of y) % meaning.q };

    fn multiply(x: Self::Scalar, y: Self::Scalar) -> Self::Scalar
        ensures { scalar_of result ≡ (scalar_of x * scalar_of y) % meaning.q };

    fn negate(x: Self::Scalar) -> Self::Scalar
        ensures { scalar_of result ≡ (meaning.q - scalar_of x) % meaning.q };

    fn invert(x: Self::Scalar) -> Option<Self::Scalar>
        ensures { Inverts meaning.q scalar_of x result };

    ghost number_is: { NUMBER ≡ meaning.number };

    ghost width_is: { W ≡ meaning.w };

    ghost scalar_width_is: { S ≡ meaning.s };

    // Two elements are equal exactly if their numbers are.
    ghost equal: { (a b : Self.Element) → Self.Element.eq a b ≡ (number_of a == number_of b) };
}
