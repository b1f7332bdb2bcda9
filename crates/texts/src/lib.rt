// A page that is written from its start: texts, numbers and slots one behind the other. Every method
// writes exactly its text, behind what was written before, and what stands past it stays.
#![tactic(auto)]

ghost use Rattle.std.specs.Prelude.{◌++◌};
ghost use Rattle.rules.specs.Sets.{has, places};
ghost use Rattle.grammar.specs.Text.{decimal, field, fields};
ghost use Rattle.texts.specs.Puts.{Puts, Room};

// A buffer, and how many of its bytes are written.
#[derive(Drop)]
pub struct Page<'a> {
    pub out: &'a mut [u8],
    pub len: usize,
}

impl<'a> Page<'a> {
    // A text.
    pub fn put(&mut self, text: &[u8])
        requires { Room self.old text.now }
        ensures { Puts self.old text.now self.new }
    {
        let end = self.len + text.len();
        self.out[self.len..end].copy_from_slice(text);
        self.len = end;
    }

    // A number in decimal.
    pub fn number(&mut self, n: usize)
        requires { Room self.old (decimal n) }
        ensures { Puts self.old (decimal n) self.new }
    {
        let mut digits = [0u8; 20];
        let k = io::decimal(n as u64, &mut digits);
        self.put(&digits[..k]);
    }

    // A space and a number.
    pub fn field(&mut self, n: usize)
        requires { Room self.old (field n) }
        ensures { Puts self.old (field n) self.new }
    {
        self.put(b" ");
        self.number(n);
    }

    // The slots of a set in rising order, a space before each.
    pub fn slots(&mut self, slots: u64)
        requires { Room self.old (fields (places (has slots) 0 64)) }
        ensures { Puts self.old (fields (places (has slots) 0 64)) self.new }
    {
        for s in 0..64 {
            let chosen = (slots >> s) % 2 == 1;
            if chosen {
                self.field(s);
            }
        }
    }

    // A word, a space and a number.
    pub fn labelled(&mut self, label: &[u8], n: usize)
        requires { Room self.old (label.now ++ field n) }
        ensures { Puts self.old (label.now ++ field n) self.new }
    {
        self.put(label);
        self.field(n);
    }
}
