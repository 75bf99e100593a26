ghost use Rattle.std.specs.Prelude.{◌≡◌, ◌≤◌, length, map, All, IfOk, option_map, slice_get};
ghost use Rattle.httparse.specs.Spans.{IsHeaderWithin, header_bytes};
ghost use Rattle.http_header.specs.Token.{lowercase};
ghost use Rattle.http_header.specs.FieldName.{IsFieldName};
ghost use Rattle.http_header.specs.FieldValue.{IsFieldValue, plain_value};
ghost use Rattle.http_header.specs.HeaderMap.{append, value_count};
ghost use Rattle.http_heads.specs.Kept.{values_under, IsKeepable, KeepsFields, IsGiven};

use http_header::{
    HeaderMap, HeaderMapError, HeaderName, HeaderNameError, HeaderValue, HeaderValueError,
};
use httparse::spans::HeaderSpan;
use nx_base::NoMemory;
use std::alloc::Global;

// The name of a field. No field of a head that is read has a name that is refused.
fn name_of(alloc: Global, text: &[u8]) -> Result<HeaderName, NoMemory>
    requires { IsFieldName text.now }
    ensures { IfOk result (λ name. name ≡ lowercase text.now) }
{
    match HeaderName::from_bytes(alloc, text) {
        Ok(name) => Ok(name),
        Err(HeaderNameError::OutOfMemory) => Err(NoMemory),
        Err(HeaderNameError::Invalid) => unreachable!(),
    }
}

// The value of a field. No field of a head that is read has a value that is refused.
fn value_of(alloc: Global, text: &[u8]) -> Result<HeaderValue, NoMemory>
    requires { IsFieldValue text.now }
    ensures { IfOk result (λ value. value ≡ plain_value text.now) }
{
    match HeaderValue::from_bytes(alloc, text) {
        Ok(value) => Ok(value),
        Err(HeaderValueError::OutOfMemory) => Err(NoMemory),
        Err(HeaderValueError::Invalid) => unreachable!(),
    }
}

// KeepsFields one more field. There is always room for so few.
fn keep_one(map: &mut HeaderMap, name: HeaderName, value: HeaderValue) -> Result<(), NoMemory>
    requires names { length map.old ≤ 64 }
    requires values { value_count map.old ≤ 64 }
    ensures { IfOk result (λ _. map.new ≡ append map.old name value) }
{
    match map.append(name, value) {
        Ok(_) => Ok(()),
        Err(HeaderMapError::OutOfMemory) => Err(NoMemory),
        Err(HeaderMapError::MaxSizeReached) => unreachable!(),
    }
}

/// KeepsFields the fields of a head that was read.
pub(crate) fn keep(alloc: Global, text: &[u8], fields: &[HeaderSpan]) -> Result<HeaderMap, NoMemory>
    requires within { All (IsHeaderWithin (length text.now)) fields.now }
    requires keepable { All (λ field. IsKeepable (header_bytes text.now field)) fields.now }
    requires few { length fields.now ≤ 64 }
    ensures { IfOk result (λ kept. KeepsFields kept (map (header_bytes text.now) fields.now)) }
{
    let mut kept = HeaderMap::new(alloc);
    for field in fields {
        let name = name_of(alloc, field.name.of(text))?;
        let value = value_of(alloc, field.value.of(text))?;
        keep_one(&mut kept, name, value)?;
    }
    Ok(kept)
}

/// How many values a name has.
#[derive(Clone, Copy)]
pub(crate) enum Given<'a> {
    Nothing,
    One(&'a [u8]),
    Several,
}

/// The value under a name, where there is just one. The name is given in lower case.
pub(crate) fn only_value<'m>(kept: &'m HeaderMap, name: &str) -> Given<'m>
    ensures { IsGiven (values_under (lowercase name.now) kept.now) result }
{
    let mut values = kept.get_all(name).iter();
    let Some(first) = values.next() else {
        return Given::Nothing;
    };
    match values.next() {
        None => Given::One(first.as_bytes()),
        Some(_) => Given::Several,
    }
}

/// The first value under a name, which is given in lower case.
pub(crate) fn first<'m>(kept: &'m HeaderMap, name: &str) -> Option<&'m [u8]>
    ensures { option_map (λ value. value.now) result ≡ slice_get (values_under (lowercase name.now) kept.now) 0 }
{
    let value = kept.get(name)?;
    Some(value.as_bytes())
}
