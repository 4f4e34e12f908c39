// A reader of an image: it keeps the lent image and the place where it stands, and goes from field to field. Each method leaves the work to a covered
// function on the bytes and the place, so any bytes are read: one past the end counts as 0, and no place runs beyond it.
#![tactic(auto)]

ghost use Rattle.std.specs.Prelude.{◌≡◌, length, get_or, ltb};
ghost use Rattle.rules.specs.Reading.{load_at};
ghost use Rattle.views.specs.View.{next_in};

#[derive(Clone, Copy)]
pub struct Reader<'a> {
    pub image: &'a [u8],
    pub at: usize,
}

impl<'a> Reader<'a> {
    // A reader at the front of an image.
    pub fn front(image: &'a [u8]) -> Reader<'a>
        ensures { (result.image ≡ image.entry) × (result.at ≡ 0) }
    {
        Reader { image, at: 0 }
    }

    // Whether there is a byte where the reader stands.
    pub fn more(self) -> bool
        ensures { result ≡ ltb self.entry.at (length self.entry.image.now) }
    {
        self.at < self.image.len()
    }

    // The tag of the field where the reader stands.
    pub fn tag(self) -> u64
        ensures { result ≡ get_or self.entry.image.now self.entry.at 0 }
    {
        items::byte_at(self.image, self.at)
    }

    // Its payload, a part of the lent image, as far as there is one.
    pub fn payload(self) -> &'a [u8]
        ensures { result.now ≡ load_at self.entry.image.now self.entry.at }
    {
        views::load(self.image, self.at)
    }

    // The reader behind it.
    pub fn next(self) -> Reader<'a>
        ensures { (result.image ≡ self.entry.image) × (result.at ≡ next_in self.entry.image.now self.entry.at) }
    {
        let at = views::next(self.image, self.at);
        Reader {
            image: self.image,
            at,
        }
    }
}
