// The refusals of 'What is refused' in document 01, and those that document 02 adds. Each case has the number that
// the document gives it, and no two cases have the same.
#![tactic(auto)]

ghost use Rattle.std.specs.Prelude.{◌≡◌};
ghost use Rattle.refusal.specs.{number_of, check_number, check_of, Numbers};

// What is wrong, in the order of the numbers.
#[derive(Clone, Copy, Debug, PartialEq, Eq)]
pub enum Refusal {
    TrailerMissing = 1,
    MarkOrFormat = 2,
    TrailerFields = 3,
    VerdictOrPasses = 4,
    ProgramLength = 5,
    FunctionCount = 6,
    HeaderCut = 7,
    ParameterKinds = 8,
    BodyLength = 9,
    BytesAfterFunctions = 10,
    MainKind = 11,
    BodyEnds = 12,
    TooDeep = 13,
    ListConstructor = 14,
    UnknownByte = 15,
    WrongKind = 16,
    BytesAfterExpression = 17,
    RingLength = 18,
    RingState = 19,
    TraceLength = 20,
    TableShort = 21,
    OutputShort = 22,
    PaddingSet = 23,
    CallElsewhere = 24,
    OperandKind = 25,
    ArgumentKind = 26,
}

// The number of a refusal in the list.
impl From<Refusal> for u32 {
    ghost from_gives = { λ refusal n. n ≡ number_of refusal };

    fn from(refusal: Refusal) -> u32 {
        refusal as u32
    }
}

// The number of the refusal that judging input came to, or 0 where nothing is wrong.
pub fn check_number(check: Result<(), Refusal>) -> u32
    ensures { result ≡ check_number check }
{
    match check {
        Ok(()) => 0,
        Err(refusal) => u32::from(refusal),
    }
}

// The check with a number: the refusal that has it, or that nothing is wrong where none has it, as 0.
pub fn numbered(number: usize) -> Result<(), Refusal>
    ensures { result ≡ check_of number }
{
    match Refusal::try_from(number) {
        Ok(refusal) => Err(refusal),
        Err(_) => Ok(()),
    }
}

// A number that no refusal has, as 0.
#[derive(Clone, Copy, Debug, PartialEq, Eq)]
pub struct NoRefusal(pub usize);

// The refusal with a number.
impl TryFrom<usize> for Refusal {
    type Error = NoRefusal;

    ghost try_from_gives = { Numbers };

    fn try_from(number: usize) -> Result<Refusal, NoRefusal> {
        match number {
            1 => Ok(Refusal::TrailerMissing),
            2 => Ok(Refusal::MarkOrFormat),
            3 => Ok(Refusal::TrailerFields),
            4 => Ok(Refusal::VerdictOrPasses),
            5 => Ok(Refusal::ProgramLength),
            6 => Ok(Refusal::FunctionCount),
            7 => Ok(Refusal::HeaderCut),
            8 => Ok(Refusal::ParameterKinds),
            9 => Ok(Refusal::BodyLength),
            10 => Ok(Refusal::BytesAfterFunctions),
            11 => Ok(Refusal::MainKind),
            12 => Ok(Refusal::BodyEnds),
            13 => Ok(Refusal::TooDeep),
            14 => Ok(Refusal::ListConstructor),
            15 => Ok(Refusal::UnknownByte),
            16 => Ok(Refusal::WrongKind),
            17 => Ok(Refusal::BytesAfterExpression),
            18 => Ok(Refusal::RingLength),
            19 => Ok(Refusal::RingState),
            20 => Ok(Refusal::TraceLength),
            21 => Ok(Refusal::TableShort),
            22 => Ok(Refusal::OutputShort),
            23 => Ok(Refusal::PaddingSet),
            24 => Ok(Refusal::CallElsewhere),
            25 => Ok(Refusal::OperandKind),
            26 => Ok(Refusal::ArgumentKind),
            _ => Err(NoRefusal(number)),
        }
    }
}
