// What takes a text.
ghost use Rattle.std.specs.Prelude.{◌≡◌, ◌≤◌, ◌++◌, List, ℕ, codes};
ghost use Rattle.decimal_text.specs.Scaling.{units_text};
ghost use Rattle.owned_values.specs.Commas.{comma_unless};
ghost use Rattle.json_writer.specs.Standing.{Start};

/// What takes a text, part by part.
pub trait Out {
    // What was put so far.
    ghost text: { Self → List ℕ };

    // What was put so far stands as it should since this start.
    ghost good: { Self → Start → Type 0 };

    /// Puts these bytes behind the others.
    fn put(&mut self, bytes: &[u8])
        ensures text { text self.new ≡ text self.old ++ bytes.now }
        ensures kept { (start : Start) → good self.old start → good self.new start };

    /// Puts a number of units of `10^-places` as the least decimal without exponent.
    fn put_units(&mut self, units: i64, places: u32)
        requires { places ≤ 18 }
        ensures text { text self.new ≡ text self.old ++ units_text units places }
        ensures kept { (start : Start) → good self.old start → good self.new start };

    /// Puts two such numbers in brackets, with a comma between.
    fn put_units_pair(&mut self, x: i64, y: i64, places: u32)
        requires { places ≤ 18 }
        ensures text { text self.new ≡ text self.old ++ (codes "[" ++ (units_text x places ++ (codes "," ++ (units_text y places ++ codes "]")))) }
        ensures kept { (start : Start) → good self.old start → good self.new start };
}

/// Puts the comma in front of a list's element, or nothing in front of the first.
pub fn put_comma<O: Out>(is_first: bool, out: &mut O)
    ensures text { O.text out.new ≡ O.text out.old ++ comma_unless is_first }
    ensures kept { (start : Start) → O.good out.old start → O.good out.new start }
{
    if !is_first {
        out.put(b",");
    }
}
