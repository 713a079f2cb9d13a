// A record's text ended: ';' for the last ',' and blanks to the end of its last line.
ghost use Rattle.std.specs.Prelude.{◌≡◌, [], ◌∷◌, ◌-◌, ◌*◌, ◌^◌, ◌≤◌, replicate};
ghost use Rattle.columns.specs.Format.{line_columns};
ghost use Rattle.columns.specs.Letters.{space, semicolon};
ghost use Rattle.records.specs.Flow.{line_count};
ghost use Rattle.records.specs.Written.{over};

const SEMICOLON: u8 = b';';

// Ends the record whose values take p characters, each with ',' behind it: ';' stands at last, and blanks fill its last line.
pub fn close(out: &mut [u8], base: usize, w: usize, p: usize) -> usize
    requires base_bound { base ≤ 2 ^ 40 }
    requires le_p { 1 ≤ p }
    requires p_bound { p ≤ 2 ^ 40 }
    requires le_w { 1 ≤ w }
    requires w_le_line_columns { w ≤ line_columns }
    ensures out_after { out.new
        ≡ over base w (over base w out.old (p - 1) (semicolon ∷ [])) p (replicate (line_count w p * w - p) space) }
    ensures value { result ≡ line_count w p }
{
    let lines = records_flow::line_count(w, p);
    let at = records_flow::put_char(out, base, w, p - 1, SEMICOLON);
    records_flow::put_run(out, base, w, at, b' ', lines * w - at);
    lines
}
