// Refused codes: of an element as it is no candidate or no member, of a scalar as it is q or more.
use super::record::Record;
use super::script::{Step, play_in};
use binary_polynomials::BinaryPolynomials;
use residues::Residues;
use std::test::Fail;

// Not one script for both groups, since they differ in the numbers of most lines.
// Codes of two bytes; 2038 is a candidate and no member.
const RESIDUES: &[Step] = &[
    Step::Taken(Record::Opening(3, 1), 0),
    Step::Refused(Record::DealCodes(1, 0, 4), 9, 5, 1),
    Step::Refused(Record::DealCodes(1, 2039, 4), 9, 5, 1),
    Step::Refused(Record::DealCodes(1, 2038, 0), 9, 5, 2),
    Step::Refused(Record::DealCodes(1, 144, 0), 9, 7, 1),
    Step::Refused(Record::DealCodes(1, 144, 2038), 9, 7, 2),
    Step::Taken(Record::DealCodes(1, 144, 4), 0),
    Step::Taken(Record::DealCodes(3, 324, 16), 0),
    Step::Taken(Record::Close(1), 0),
    Step::Taken(Record::Complaint(2, 1), 0),
    Step::Taken(Record::Close(2), 0),
    Step::Refused(Record::Answer(1, 2, 1019, 1019), 9, 6, 1),
    Step::Refused(Record::Answer(1, 2, 4, 1019), 9, 8, 1),
    Step::Taken(Record::Answer(1, 2, 4, 1), 1),
    Step::Taken(Record::Close(3), 0),
    Step::Refused(Record::ExposureCodes(1, 2039, 0), 9, 5, 1),
    Step::Refused(Record::ExposureCodes(1, 16, 0), 9, 7, 1),
    Step::Refused(Record::ExposureCodes(1, 16, 2038), 9, 7, 2),
    Step::Taken(Record::ExposureCodes(1, 16, 16), 0),
    Step::Taken(Record::Close(4), 0),
    Step::Refused(Record::Objection(2, 1, 1019, 1), 9, 6, 1),
    Step::Refused(Record::Objection(2, 1, 4, 1019), 9, 8, 1),
    Step::Refused(Record::Objection(2, 1, 1018, 1018), 10, 6, 1),
    Step::Taken(Record::Objection(2, 1, 4, 1), 2),
    Step::Taken(Record::Close(5), 0),
    Step::Refused(Record::Reveal(2, 1, 1019, 1), 9, 6, 1),
    Step::Refused(Record::Reveal(2, 1, 4, 1019), 9, 8, 1),
    Step::Refused(Record::Reveal(2, 1, 1018, 1018), 10, 6, 1),
    Step::Taken(Record::Reveal(2, 1, 4, 1), 1),
];

// Codes of three bytes; every candidate is a member.
const POLYNOMIALS: &[Step] = &[
    Step::Taken(Record::Opening(3, 1), 0),
    Step::Refused(Record::DealCodes(1, 0, 131072), 9, 5, 1),
    Step::Refused(Record::DealCodes(1, 131072, 2), 9, 5, 1),
    Step::Refused(Record::DealCodes(1, 12, 0), 9, 8, 1),
    Step::Taken(Record::DealCodes(2, 131071, 131071), 0),
    Step::Taken(Record::DealCodes(1, 12, 2), 0),
    Step::Taken(Record::DealCodes(3, 10, 4), 0),
    Step::Taken(Record::Close(1), 0),
    Step::Taken(Record::Complaint(2, 1), 0),
    Step::Taken(Record::Close(2), 0),
    Step::Refused(Record::Answer(1, 2, 131071, 131071), 9, 6, 1),
    Step::Refused(Record::Answer(1, 2, 4, 131071), 9, 9, 1),
    Step::Taken(Record::Answer(1, 2, 4, 1), 1),
    Step::Taken(Record::Close(3), 0),
    Step::Refused(Record::ExposureCodes(1, 131072, 0), 9, 5, 1),
    Step::Refused(Record::ExposureCodes(1, 4, 0), 9, 8, 1),
    Step::Taken(Record::ExposureCodes(1, 4, 4), 0),
    Step::Taken(Record::Close(4), 0),
    Step::Refused(Record::Objection(2, 1, 131071, 1), 9, 6, 1),
    Step::Refused(Record::Objection(2, 1, 4, 131071), 9, 9, 1),
    Step::Refused(Record::Objection(2, 1, 131070, 131070), 10, 6, 1),
    Step::Taken(Record::Objection(2, 1, 4, 1), 2),
    Step::Taken(Record::Close(5), 0),
    Step::Refused(Record::Reveal(2, 1, 131071, 1), 9, 6, 1),
    Step::Refused(Record::Reveal(2, 1, 4, 131071), 9, 9, 1),
    Step::Refused(Record::Reveal(2, 1, 131070, 131070), 10, 6, 1),
    Step::Taken(Record::Reveal(2, 1, 4, 1), 1),
];

#[test]
fn codes_refused(rt: HostRuntime) -> Result<(), Fail> {
    play_in::<Residues>(&rt, RESIDUES, &[])?;
    play_in::<BinaryPolynomials>(&rt, POLYNOMIALS, &[])
}
