// The values of a text: its fields, split by single blanks, each as a number.
ghost use Rattle.std.specs.Prelude.{◌≡◌, eqb, length, MatchOption};
ghost use Rattle.std.specs.List.{position};
ghost use Rattle.lines.specs.Fields.{fields};
ghost use Rattle.lines.specs.Walking.{value_of, values_of};

// 2 to the 32nd, above every value.
const LIMIT: usize = 4294967296;

// The index of a text's first blank, where its first field ends.
pub fn first_blank(text: &[u8]) -> Option<usize>
    ensures { result ≡ position (λ x. eqb x 32) text.now }
{
    text.iter().position(|x| *x == b' ')
}

// The values that a text's fields are, where it has N fields and each is a value.
pub fn read_values<const N: usize>(text: &[u8]) -> Option<[usize; N]>
    ensures { result ≡ values_of N (fields text.now) }
{
    let mut values = [0; N];
    read_into(text, &mut values)?;
    Some(values)
}

// Puts a text's fields into values, where it has as many and each is a value.
// It fills a slice: a loop over a split gets no proof in a function with a const parameter.
fn read_into(text: &[u8], values: &mut [usize]) -> Option<()>
    ensures { MatchOption result (values_of (length values.old) (fields text.now) ≡ None)
        (λ _. values_of (length values.old) (fields text.now) ≡ Some values.new) }
{
    let mut fields = text.split(|x| *x == b' ');
    for value in values.iter_mut() {
        *value = value_of(fields.next()?)?;
    }
    if fields.next().is_some() {
        return None;
    }
    Some(())
}

// The value of a field: a decimal number below 2 to the 32nd. A sign, which `parse` takes, is none of it.
fn value_of(field: &[u8]) -> Option<usize>
    ensures { result ≡ value_of field.now }
{
    if field.is_empty() {
        return None;
    }
    let mut value = 0;
    for x in field {
        if !x.is_ascii_digit() {
            return None;
        }
        value = value * 10 + (*x - b'0') as usize;
        if value >= LIMIT {
            return None;
        }
    }
    Some(value)
}
