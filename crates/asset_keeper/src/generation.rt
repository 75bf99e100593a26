/// Which close of the repository wrote the table. At first the number is 0, and the word zeros.
#[derive(Clone, Copy, Debug, PartialEq, Eq)]
pub struct Generation {
    pub number: u64,
    pub random: [u8; 10],
}
