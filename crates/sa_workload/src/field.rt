// What follows the first word of a line.
ghost use Rattle.std.specs.Prelude.{◌≡◌, ◌≤◌, [], ◌∷◌, length};
ghost use Rattle.sa_workload.specs.Bad.{registers};
ghost use Rattle.sa_workload.specs.Fields.{index_of, numbered, read_field};
ghost use Rattle.sa_workload.specs.Stage.{field_of};

use arrayvec::ArrayVec;
use sa_base::Cause;
use sa_text::read_number;

/// As many fields as a line has at most: a space's in version 3.
pub const MAX_FIELDS: usize = 6;

/// What is in one place after the first word of a line.
#[derive(Clone, Copy, Default)]
pub enum Field {
    /// A register: `r0` to `r7`.
    #[default]
    Register,
    /// A number between these two.
    Within(u64, u64),
    /// A number below this count, else it is refused for this cause.
    Below(u16, Cause),
}

/// The fields of a line.
pub type Fields = ArrayVec<Field, MAX_FIELDS>;

/// The numbers of a line; that of a register is 0 to 7.
pub type Numbers = ArrayVec<u64, MAX_FIELDS>;

impl Field {
    /// The word as a number of this field.
    pub(crate) fn read(self, word: &[u8]) -> Result<u64, Cause>
        ensures { numbered result ≡ read_field (field_of self) word.now }
    {
        if let Field::Register = self {
            return register_of(word).ok_or(Cause::BadWord);
        }
        let Some(n) = read_number(word) else {
            return Err(Cause::BadNumber);
        };
        match self {
            Field::Within(low, high) if n < low || n > high => Err(Cause::OutOfRange),
            Field::Below(count, cause) if n >= u64::from(count) => Err(cause),
            _ => Ok(n),
        }
    }
}

// The number of the register of this name: `r` and its number.
fn register_of(word: &[u8]) -> Option<u64>
    ensures { result ≡ index_of word.now registers }
{
    if word.len() != 2 {
        return None;
    }
    if word[0] != b'r' {
        return None;
    }
    if word[1] < b'0' || word[1] > b'7' {
        return None;
    }
    Some(u64::from(word[1] - b'0'))
}

/// A list of these, of which there are few enough.
pub(crate) fn list<T: Copy + Default>(items: &[T]) -> ArrayVec<T, MAX_FIELDS>
    requires { length items.now ≤ MAX_FIELDS }
    ensures { result.items ≡ items.now }
{
    let mut list = ArrayVec::new();
    list.try_extend_from_slice(items).unwrap();
    list
}

/// A list of one.
pub(crate) fn one<T: Copy + Default>(item: T) -> ArrayVec<T, MAX_FIELDS>
    ensures { result.items ≡ item ∷ [] }
{
    let mut list = ArrayVec::new();
    list.push(item);
    list
}
