ghost use Rattle.std.specs.Prelude.{◌≡◌, take};
ghost use Rattle.sc_eval.specs.Numbers.{numbers_of, IsBeginning};

/// Room for so many numbers is worth giving back.
const MUCH_ROOM: usize = 64;

/// The numbers of rows, ascending: a list that an index lends, or one that was made.
#[derive(Drop)]
pub enum Numbers<'a> {
    Lent(&'a [u32]),
    Made(Vec<u32>),
}

/// How many rows a query finds, and the numbers of the first of them.
#[derive(Drop)]
pub struct Matches<'a> {
    pub count: usize,
    pub first: Numbers<'a>,
}

impl<'a> Numbers<'a> {
    /// The numbers, whoever keeps them.
    pub fn as_slice(&self) -> &[u32]
        ensures { result.now ≡ numbers_of self.now }
    {
        match self {
            Numbers::Lent(numbers) => numbers,
            Numbers::Made(numbers) => numbers.as_slice(),
        }
    }

    /// How many numbers there are, and the first of them, `most` or all.
    pub(crate) fn start(self, most: usize) -> Matches<'a>
        ensures { IsBeginning most (numbers_of self.entry) result }
    {
        let count = self.as_slice().len();
        let first = self.limited_to(most);
        Matches { count, first }
    }

    // The first of the numbers, `most` of them or all. A list that is lent stays lent; of one that was made the room that is not needed is
    // given back where it is much.
    fn limited_to(self, most: usize) -> Numbers<'a>
        ensures { numbers_of result ≡ take most (numbers_of self.entry) }
    {
        match self {
            Numbers::Lent(numbers) => Numbers::Lent(&numbers[..most.min(numbers.len())]),
            Numbers::Made(numbers) => Numbers::Made(cut(numbers, most)),
        }
    }
}

// The first of the numbers. Room that they do not need is given back where it is much.
fn cut(mut numbers: Vec<u32>, most: usize) -> Vec<u32>
    ensures { result.items ≡ take most numbers.items }
{
    numbers.truncate(most);
    if numbers.capacity().saturating_sub(numbers.len()) >= MUCH_ROOM {
        numbers.shrink_to_fit();
    }
    numbers
}
