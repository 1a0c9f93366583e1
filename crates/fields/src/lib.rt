// Values laid out in bytes by fields: a value's bytes are read, judged and put, and so is a row of values. The laws of every such layout are
// in specs/Laws.antt.
#![tactic(auto)]

ghost use Rattle.std.specs.Prelude.{◌≡◌, ◌*◌, ◌/◌, ◌^◌, ◌<◌, length, flat_map, refl, eqb, ltb};
ghost use Rattle.std.proofs.Common.{ap, rules};
ghost use Rattle.std.proofs.lemmas.List.{get_or_append_left};
ghost use Rattle.fields.specs.Fields.{Field, flag, good_all, put_all, row_from, read, decode, is_value, value_from, value_into};
ghost use Rattle.fields.specs.Laws.{Local};

// Values that stand in W bytes each: what a field of the definitions is in code.
pub trait Field<const W: usize> {
    type Value: Copy;

    // The definition that the code keeps to.
    ghost field: { Field Self.Value };

    // The value of its bytes.
    fn get(b: &[u8; W]) -> Self::Value
        ensures { result ≡ field.get b.now };

    // Whether bytes are a value's.
    fn is_good(b: &[u8; W]) -> bool
        ensures { result ≡ field.good b.now };

    // The bytes of a value.
    fn put(x: Self::Value) -> [u8; W]
        ensures { result ≡ field.put x };

    ghost width: { field.width ≡ W };

    ghost some: { 0 < W };

    ghost fits: { W < 2 ^ 63 };

    // What is behind a value's bytes does not matter.
    ghost local: { Local field };
}

// ---- a value alone

// Whether bytes are a value's.
pub fn is_value<F: Field<W>, const W: usize>(b: &[u8]) -> bool
    ensures { result ≡ is_value F.field b.now }
{
    match b.as_array() {
        Some(b) => F::is_good(b),
        None => false,
    }
}

// The value of its bytes, and this one where there are more or fewer of them.
pub fn value_from<F: Field<W>, const W: usize>(d: F::Value, b: &[u8]) -> F::Value
    ensures { result ≡ value_from F.field d b.now }
{
    match b.as_array() {
        Some(b) => F::get(b),
        None => d,
    }
}

// The value of its bytes, if they are a value's.
#[tactic(auto, unfolding(crate::specs::Fields::read))]
pub fn read<F: Field<W>, const W: usize>(b: &[u8]) -> Option<F::Value>
    ensures { read result ≡ decode F.field b.now }
{
    match b.as_array() {
        Some(b) if F::is_good(b) => Some(F::get(b)),
        _ => None,
    }
}

// Puts a value into its bytes; where there are more or fewer of them, they stay as they are.
pub fn value_into<F: Field<W>, const W: usize>(b: &mut [u8], x: F::Value)
    ensures { b.new ≡ value_into F.field b.old x }
{
    if b.len() == W {
        b.copy_from_slice(&F::put(x));
    }
}

// ---- a row of values, one behind another

// Whether the bytes of each value are good: of as many as there are.
pub fn are_good<F: Field<W>, const W: usize>(b: &[u8]) -> bool
    ensures { result ≡ good_all F.field (length b.now / W) b.now }
{
    let (rows, _) = b.as_chunks();
    // Each is judged, without an end at the first that is not good: several at once are faster.
    let mut good = true;
    for row in rows {
        good &= F::is_good(row);
    }
    good
}

// The first N values; `d` in the places of those that are not there.
pub fn get_all<F: Field<W>, const W: usize, const N: usize>(d: F::Value, b: &[u8]) -> [F::Value; N]
    ensures { result ≡ row_from F.field d N b.now }
{
    let (rows, _) = b.as_chunks();
    let rows = &rows[..rows.len().min(N)];
    let mut values = [d; N];
    for (i, row) in rows.iter().enumerate() {
        values[i] = F::get(row);
    }
    values
}

// The bytes of each value.
pub fn put_all<F: Field<W>, const W: usize, const N: usize>(values: &[F::Value; N]) -> [[u8; W]; N]
    ensures { flat_map (λ row. row) result ≡ put_all F.field values.now }
{
    let mut rows = [[0u8; W]; N];
    for (i, x) in values.iter().enumerate() {
        rows[i] = F::put(*x);
    }
    rows
}

// ---- a flag, in one byte: 1 for true, 0 for false

pub struct Flag;

impl Field<1> for Flag {
    type Value = bool;

    ghost field = { flag };

    fn get(b: &[u8; 1]) -> bool {
        b[0] == 1
    }

    fn is_good(b: &[u8; 1]) -> bool {
        b[0] < 2
    }

    fn put(x: bool) -> [u8; 1] {
        [x as u8]
    }

    ghost width = { refl };

    ghost some = { Prim.search rules };

    ghost fits = { Prim.search rules };

    ghost local = { record {
      get = λ b r h. ap (λ n. eqb n 1) (get_or_append_left b r 0 0 h);
      good = λ b r h. ap (λ n. ltb n 2) (get_or_append_left b r 0 0 h);
    } };
}
