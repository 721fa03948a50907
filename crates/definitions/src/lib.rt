// Documents 01 and 02 as definitions: read specs/ in the order of its Lib.antt. The code here is the types that the calls answer
// with, the length of a plan, the layout of a set's memory, and the symbol of an unread cell.

#![tactic(auto)]

ghost use Rattle.std.specs.Prelude.{◌≡◌, true, false, MatchResult};
ghost use Rattle.definitions.specs.Explaining.{values_of};
ghost use Rattle.definitions.specs.Numbers.{number as number_in_table, number_of};

// Why a call does nothing: the rows of the table "What is returned", by their numbers there.
#[derive(Clone, Copy, Debug, PartialEq, Eq)]
pub enum Refusal {
    // the plan is not 40 bytes, or one of its last two is not 0
    PlanBytes = 1,
    // p is no prime from 2 to 251
    Modulus = 2,
    // the rows are none, above 16, or above p
    Rows = 3,
    // the columns are, of the same
    Columns = 13,
    // the degree is not below the smaller side
    Degree = 4,
    // a point is not below p or not above the one before it, or an unused byte is not 0
    Points = 5,
    // a record or a buffer has another length than the plan says
    Length = 6,
    // a photograph's number is held, or is none
    Held = 17,
    // a photograph's number is not held
    NotHeld = 18,
    // a symbol is p or more, and not that of an unread cell
    Symbol = 7,
    // a doubt is above the full doubt, or an unread cell's is another
    Doubt = 8,
    // a coefficient is p or more
    Coefficient = 9,
    // no record costs under the radius
    NoneNear = 10,
    // the length of a file of plans is wrong, or it has too many
    PlanFile = 11,
    // no plan in the file is of the season
    NoPlan = 12,
    // a file of windows has a wrong length, too many, or a faulty one
    WindowFile = 14,
    // two windows share a day
    SharedDay = 15,
    // the date is unreal, or in no window
    NoWindow = 16,
}

impl Refusal {
    // Its number in the table.
    pub fn number(self) -> u32
        ensures { result ≡ number_in_table self }
    {
        self as u32
    }

    // This refusal where it applies: a row of the table.
    pub fn when(self, applies: bool) -> Result<(), Refusal>
        ensures { MatchResult result (λ _. applies ≡ false) (λ refusal. (refusal ≡ self) × (applies ≡ true)) }
    {
        if applies { Err(self) } else { Ok(()) }
    }
}

// The number that a call answers for C: 0 where it refuses nothing.
pub fn number(outcome: Result<(), Refusal>) -> u32
    ensures { result ≡ number_of outcome }
{
    match outcome {
        Ok(()) => 0,
        Err(refusal) => refusal.number(),
    }
}

// What measuring and reading answer. Of a refusal all but the number is 0.
#[repr(C)]
#[derive(Clone, Copy)]
pub struct Reading {
    // 0, or the refusal of the table "What is returned"
    pub number: u32,
    // D, the record's cost
    pub cost: u32,
    // R - D, the radius less the cost
    pub margin: i32,
    // how many cells were read and differ from the record's mark
    pub changed: u32,
    // how many cells were not read
    pub unread: u32,
    // 0 to 3, by the changed count
    pub class: u32,
}

// What explaining answers: why the record that was expected did not come up, or that it did.
#[derive(Clone, Copy)]
pub enum Reason {
    // the refusal of the table "What is returned": its number
    Refused(u32),
    // the expected record is the answer
    Answer,
    // another record is: the lowest place at which the two marks differ
    Other { place: u32 },
    // no record is within the radius: the expected one's cost less the radius
    Nothing { excess: u32 },
}

// The same for C, which is handed no enum; there it is `traymark_reason`. What a case does not give is 0.
#[repr(C)]
#[derive(Clone, Copy)]
pub struct Explanation {
    // 0, or the refusal
    pub number: u32,
    // 1 Answer, 2 Other, 3 Nothing; 0 with a refusal
    pub reason: u32,
    pub place: u32,
    pub excess: u32,
}

// The number, reason, place and excess of each case.
impl From<Reason> for Explanation {
    ghost from_gives = { λ reason values. values ≡ values_of reason };

    fn from(reason: Reason) -> Explanation {
        let none = Explanation {
            number: 0,
            reason: 0,
            place: 0,
            excess: 0,
        };
        match reason {
            Reason::Refused(number) => Explanation { number, ..none },
            Reason::Answer => Explanation { reason: 1, ..none },
            Reason::Other { place } => Explanation {
                reason: 2,
                place,
                ..none
            },
            Reason::Nothing { excess } => Explanation {
                reason: 3,
                excess,
                ..none
            },
        }
    }
}

// The length of a plan.
pub const PLAN_BYTES: usize = 40;

// The memory of a set of photographs: how long it is, where its flags begin, after the plan, and where the symbols, and how many
// bytes there are for those of one photograph.
pub const SET_BYTES: usize = 2353;

pub const FLAGS: usize = 40;

pub const PLACES: usize = 49;

pub const PLACE_BYTES: usize = 256;

// The symbol of a cell that was not read: an erasure.
pub const UNREAD: u8 = 255;
