/// Why pairs give no properties: the first of the six required keys, in byte order, that gives none.
#[derive(Debug, Clone, Copy, PartialEq, Eq, Drop)]
pub enum BlobPropsErr {
    /// The key isn't there.
    Missing { key: &'static str },
    /// Its value breaks the rule of the key.
    BadValue { key: &'static str },
    /// Memory was refused.
    NoMemory,
}
