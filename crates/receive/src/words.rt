// The words of what is refused.
ghost use Rattle.std.specs.Prelude.{◌≡◌};
ghost use Rattle.files.specs.Words.{row_of};
ghost use Rattle.receive.specs.Words.{refusals, row_number};

// What a refusal's number means: a row of document 01's table.
pub(crate) fn refusal(number: u8) -> &'static [u8]
    ensures { result.now ≡ row_of refusals (row_number number) }
{
    files::row_of(
        b"payload length above 65,535\n\
          request id even\n\
          stream id even\n\
          stream flag 0x08 or higher\n\
          type not 1, 2 or 9\n\
          closed stream, no beginning flag\n\
          open stream, beginning flag\n\
          type's flags broken\n\
          new: id active\n\
          new: no free slot\n\
          continuation: id not collecting\n\
          0x08 differs from the first frame\n\
          command longer than 2,048 in all\n\
          whole command isn't one CBOR item of the subset\n\
          whole command isn't a command map\n\
          a key twice in the outer map or in `args`\n\
          data: id neither waiting nor draining\n\
          settings without beginning\n\
          settings not identity\n\
          not a rule of frames\n",
        refusal_row(number),
    )
}

// The rows are those of 11 to 29, and one for any other number.
fn refusal_row(number: u8) -> usize
    ensures { result ≡ row_number number }
{
    match number {
        11..=29 => (number - 11) as usize,
        _ => 19,
    }
}
