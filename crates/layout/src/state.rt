// Where the layout is: counters, part by part as the calls take them, and what a step comes to.
ghost use Rattle.std.specs.Prelude.{◌≡◌, ◌≤◌};
ghost use Rattle.layout.specs.Limits.{word_limit};
ghost use Rattle.layout.specs.Code.Places.{place_code, PlaceFits};
ghost use Rattle.layout.specs.Code.Stands.{entered_own, place_of};

#[derive(Clone, Copy)]
pub enum Section {
    Text,
    Data,
    Bss,
}

// A section and the bytes reserved there: an address once the sections' starts are known.
#[derive(Clone, Copy)]
pub struct Place {
    pub section: Section,
    pub offset: usize,
}

// How many items there are, and the words that they reserve.
#[derive(Clone, Copy)]
pub struct ItemCount {
    pub items: usize,
    pub words: usize,
}

// How many bytes of data there are, and the label words among them.
#[derive(Clone, Copy)]
pub struct DataCount {
    pub bytes: usize,
    pub label_words: usize,
}

#[derive(Clone, Copy)]
pub struct OwnCounters {
    pub section: Section,
    pub items: ItemCount,
    pub stored: DataCount,
    pub bss: usize,
}

#[derive(Clone, Copy)]
pub struct RestCounters {
    pub equates: usize,
    pub own: OwnCounters,
}

#[derive(Clone, Copy)]
pub struct Counters {
    pub labels: usize,
    pub rest: RestCounters,
}

impl OwnCounters {
    // The same counts in another section.
    pub fn entered(self, section: Section) -> OwnCounters
        ensures { result ≡ entered_own section self }
    {
        OwnCounters { section, ..self }
    }

    // The present place.
    pub fn place(self) -> Place
        requires { self.items.words ≤ word_limit }
        ensures { result ≡ place_of self }
    {
        let offset = match self.section {
            Section::Text => 4 * self.items.words,
            Section::Data => self.stored.bytes,
            Section::Bss => self.bss,
        };
        Place {
            section: self.section,
            offset,
        }
    }
}

impl Counters {
    pub const START: Counters = Counters {
        labels: 0,
        rest: RestCounters {
            equates: 0,
            own: OwnCounters {
                section: Section::Text,
                items: ItemCount { items: 0, words: 0 },
                stored: DataCount {
                    bytes: 0,
                    label_words: 0,
                },
                bss: 0,
            },
        },
    };
}

impl Place {
    // A place as one number, as records keep it until the sections' starts are known: 2^24 times the section's number,
    // and the bytes reserved there.
    pub fn code(self) -> u32
        requires { PlaceFits self }
        ensures { result ≡ place_code self }
    {
        match self.section {
            Section::Text => self.offset as u32,
            Section::Data => 0x1000000 + self.offset as u32,
            Section::Bss => 0x2000000 + self.offset as u32,
        }
    }
}
