//! City objects that wait to be marked.
ghost use Rattle.std.specs.Prelude.{◌≡◌, ◌<◌, ◌≤◌, Some, false, length, slice_get};

/// At most `PENDING` city objects that wait to be marked, by their numbers. `full` says whether no
/// more could wait at some time, so that some may have been left out.
#[derive(Drop)]
pub struct Pending<const PENDING: usize> {
    numbers: [u32; PENDING],
    count: usize,
    pub full: bool,
    ghost room: { count ≤ PENDING },
}

/// Returns the number at a place.
fn number_at(numbers: &[u32], place: usize) -> u32
    requires { place < length numbers.now }
    ensures { slice_get numbers.now place ≡ Some result }
{
    numbers[place]
}

impl<const PENDING: usize> Pending<PENDING> {
    ghost use Rattle.std.specs.Prelude.{IfSome, List, ℕ};
    ghost use Rattle.cj_spans.specs.Preorder.{Span};
    ghost use Rattle.cj_spans.specs.Meaning.Tree.{Tree};
    ghost use Rattle.cj_spans.specs.View.{tree_at};
    ghost use Rattle.cj_feature.specs.inner.Marking.{WaitsFor};
    ghost use Rattle.cj_feature.specs.Meaning.Reachable.{IsReachedObject};

    /// Returns a list where none waits.
    pub fn new() -> Self
        ensures { (feature : Tree) (line : List ℕ) (spans : List Span) → WaitsFor feature line spans result }
    {
        Pending {
            numbers: [0; PENDING],
            count: 0,
            full: false,
        }
    }

    /// Returns whether no more can wait.
    pub fn is_full(&self) -> bool
        ensures { result ≡ false → self.now.count < PENDING }
    {
        self.count == PENDING
    }

    /// Makes a city object wait that is reached.
    pub fn add(&mut self, number: u32)
        requires { self.old.count < PENDING }
        ensures { (feature : Tree) (line : List ℕ) (spans : List Span) → number < length spans
            → IsReachedObject feature (tree_at line spans number)
            → WaitsFor feature line spans self.old → WaitsFor feature line spans self.new }
    {
        self.numbers[self.count] = number;
        self.count += 1;
        self.full |= self.count == PENDING;
    }

    /// Removes and returns the number that was added last, if one waits.
    pub fn pop(&mut self) -> Option<u32>
        ensures pending { (feature : Tree) (line : List ℕ) (spans : List Span)
            → WaitsFor feature line spans self.old → WaitsFor feature line spans self.new }
        ensures number { (feature : Tree) (line : List ℕ) (spans : List Span)
            → WaitsFor feature line spans self.old
            → IfSome result (λ n. (n < length spans) × IsReachedObject feature (tree_at line spans n)) }
    {
        if self.count == 0 {
            return None;
        }
        let number = number_at(&self.numbers, self.count - 1);
        self.count -= 1;
        Some(number)
    }
}
