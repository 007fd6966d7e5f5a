// The answers of the three operations, as the list has them and as they are given.
ghost use Rattle.std.specs.Prelude.{◌≡◌};
ghost use Rattle.test_vectors.specs.Answers.{same_answer};

// The refusals that a smaller table or buffer brings, by their numbers in the list. They are numbers, as `Answer` has them: the enum of
// refusals is of a crate under test, and no number is taken from one here.
pub(crate) const TABLE_FULL: u64 = 5;

pub(crate) const IMAGE_TOO_SHORT: u64 = 23;

pub(crate) const TEXT_TOO_SHORT: u64 = 32;

// The number of the refusal, 0 where there is none, and the other values in the order of the exported functions' answers. A value that
// a case does not carry is 0. All are numbers, as the list and the exported functions have them, and are compared as such.
#[derive(Clone, Copy)]
pub struct Answer<const N: usize> {
    pub number: u64,
    pub values: [u64; N],
}

// Words, labels, limb_bits, data_limbs, addr_limbs, the Rust's line, the line, the needed length.
pub type AssembleAnswer = Answer<8>;

// The header's fields in their order, and where the code ends.
pub type OpenAnswer = Answer<12>;

// The text's length, the index of a faulty word, the needed length.
pub type ListAnswer = Answer<3>;

impl<const N: usize> Answer<N> {
    // Whether the number and each of the values are those of another answer. A derived comparison would say as much, but no contract would rest
    // on it, and one that always says yes would be proved.
    #[tactic(auto, unfolding(crate::specs::Answers::same_answer), using(crate::proofs::Answers::pointwise_same))]
    pub(crate) fn is(self, other: Answer<N>) -> bool
        ensures { result ≡ same_answer self.entry other.entry }
    {
        self.number == other.number && self.values == other.values
    }

    pub(crate) fn is_refused(self) -> bool {
        self.number != 0
    }
}

impl Answer<8> {
    pub(crate) fn labels(self) -> u64 {
        let [_, labels, ..] = self.values;
        labels
    }

    // How many bytes the image has: none where the source is refused.
    pub(crate) fn image_length(self) -> u64 {
        let [words, ..] = self.values;
        if self.is_refused() {
            0
        } else {
            words.wrapping_mul(4).wrapping_add(32)
        }
    }
}
