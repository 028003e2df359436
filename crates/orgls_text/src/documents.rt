//! Texts that an editor has open, by their addresses.
ghost use Rattle.std.specs.Prelude.{◌≡◌, ◌<◌, [], IfSome, length, option_copied, position};
ghost use Rattle.orgls_text.specs.Documents.{Changed, Closed, Opened, document_of, has_address, text_behind_changes, view_behind};
ghost use Rattle.orgls_text.specs.Outcomes.{Becomes, IsBehind, Puts};

use crate::change::{ContentChange, behind_changes};
use crate::position::PositionEncoding;
use org_base::{Code, Fault};
use org_text::{Text, Whole};
use std::alloc::Global;
use std::marker::Model;

/// A text that an editor has open.
#[derive(Debug, Drop)]
pub struct Document {
    address: String,
    version: i64,
    text: Whole,
}

impl Model for Document {
    ghost use Rattle.std.specs.Prelude.{string_bytes};
    ghost use Rattle.orgls_text.specs.Documents.{DocumentView};

    ghost Value = { DocumentView };

    ghost view = { λ d. record { address = string_bytes d.address; version = d.version; text = d.text } };
}

impl Document {
    /// Where the editor says that it is.
    pub fn address(&self) -> &str
        ensures value { result.now ≡ self.now.address }
    {
        self.address.as_str()
    }

    /// Which of its versions the editor told last.
    pub fn version(&self) -> i64
        ensures value { result ≡ self.now.version }
    {
        self.version
    }

    // Whether it has an address.
    fn is_at(&self, address: &str) -> bool
        ensures value { result ≡ has_address address.now self.now }
    {
        address == self.address.as_str()
    }

    /// What it says.
    pub fn text(&self) -> &Whole
        ensures value { result.now ≡ self.now.text }
    {
        &self.text
    }
}

/// The texts that are open, in the order in which they were opened.
#[derive(Debug, Drop)]
pub struct Documents {
    alloc: Global,
    encoding: PositionEncoding,
    documents: Vec<Document>,
}

impl Model for Documents {
    ghost use Rattle.orgls_text.specs.Documents.{DocumentsView};

    ghost Value = { DocumentsView };

    ghost view = { λ d. record { encoding = d.encoding; documents = d.documents.items } };
}

impl Documents {
    /// None are open; characters will be counted in these units.
    pub fn new(alloc: Global, encoding: PositionEncoding) -> Documents
        ensures value { result ≡ record { encoding = encoding; documents = [] } }
    {
        Documents {
            alloc,
            encoding,
            documents: Vec::new(alloc),
        }
    }

    /// In which units characters are counted.
    pub fn encoding(&self) -> PositionEncoding
        ensures value { result ≡ self.now.encoding }
    {
        self.encoding
    }

    /// All that are open.
    pub fn all(&self) -> &[Document]
        ensures value { result.now ≡ self.now.documents }
    {
        self.documents.as_slice()
    }

    /// What is open under an address.
    pub fn document(&self, address: &str) -> Option<&Document>
        ensures value { option_copied result ≡ document_of self.now.documents address.now }
    {
        self.documents
            .iter()
            .find(|d| address == d.address.as_str())
    }

    /// A text is opened, or another under an address at which one is open. `Size` where it has too many bytes.
    pub fn open(&mut self, address: &str, version: i64, text: &str) -> Result<(), Fault>
        ensures value { IsBehind self.old (Opened address.now version text.now) self.new result }
    {
        let text = Whole::of(self.alloc, text)?;
        let address = String::from_str(self.alloc, address)?;
        self.put(Document {
            address,
            version,
            text,
        })
    }

    /// A text is changed: all of these changes are made in their order, or none. `Unknown` where none is open under the
    /// address, `Range` where a change ends before it begins, `Size` where one leaves too many bytes.
    pub fn change(
        &mut self,
        address: &str,
        version: i64,
        changes: &[ContentChange],
    ) -> Result<(), Fault>
        ensures value { IsBehind self.old (Changed address.now version changes.now) self.new result }
    {
        let text = self.text_behind(address, changes)?;
        let address = String::from_str(self.alloc, address)?;
        self.put(Document {
            address,
            version,
            text,
        })
    }

    /// A text is closed; nothing happens where none is open under the address.
    pub fn close(&mut self, address: &str)
        ensures value { self.new ≡ view_behind self.old (Closed address.now) }
    {
        self.documents.retain(|d| !d.is_at(address));
    }

    // The text behind some changes of what is open under an address.
    fn text_behind(&self, address: &str, changes: &[ContentChange]) -> Result<Whole, Fault>
        ensures value { Becomes (text_behind_changes self.now changes.now address.now) result }
    {
        match self.document(address) {
            None => Err(Fault::Plain(Code::Unknown)),
            Some(document) => behind_changes(self.alloc, self.encoding, &document.text, changes),
        }
    }

    // Puts a document in the place of the one with its address, or behind all others.
    fn put(&mut self, document: Document) -> Result<(), Fault>
        ensures value { Puts self.old self.new document result }
    {
        match self.place(document.address.as_str()) {
            Some(place) => {
                self.documents[place] = document;
                Ok(())
            }
            None => {
                self.documents.push(document)?;
                Ok(())
            }
        }
    }

    // Where the one with an address stands.
    fn place(&self, address: &str) -> Option<usize>
        ensures value { result ≡ position (has_address address.now) self.now.documents }
        ensures within { IfSome result (λ place. place < length self.now.documents) }
    {
        self.documents
            .iter()
            .position(|d| address == d.address.as_str())
    }
}
