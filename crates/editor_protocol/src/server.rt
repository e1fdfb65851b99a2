// The server: its state, and its responses.
ghost use Rattle.std.specs.Prelude.{◌<◌, IfOk, IfSome, IsUtf8, length};
ghost use Rattle.serde_json.specs.Data.{null};
ghost use Rattle.serde_json.specs.View.{view};
ghost use Rattle.editor_protocol.specs.Messages.{kind_of};
ghost use Rattle.editor_protocol.specs.Steps.{Answers, IsQuiet, IsSilent, IsUnder, kind_in_text};

use crate::document::{Document, MAX_DOCUMENTS, place_of, version_of};
use crate::fault::Fault;
use crate::message::{Message, message_of, text_at};
use crate::reply::{complaint, refusal, response};
use crate::slip::{Slip, published, withdrawn};
use editor_text::Encoding;
use serde_json::{Value, json};
use std::alloc::{AllocError, Global};

// The lifecycle state of the server.
#[derive(Clone, Copy, Debug, PartialEq, Eq)]
enum Phase {
    New,
    Running,
    ShutDown,
}

/// A language server.
#[derive(Drop)]
pub struct Server {
    phase: Phase,
    encoding: Encoding,
    documents: Vec<Document>,
}

/// The action after a message.
#[derive(Drop)]
pub enum Next {
    /// Nothing.
    Nothing,
    /// Send this response.
    Response(String),
    /// Send this notification.
    Notice(String),
    /// Validate the document at this index, and send the result of [`Server::published`].
    Judge(usize),
    /// Exit with this status.
    End(u8),
}

// The result of a request.
#[derive(Drop)]
enum Reply {
    Given(Value),
    Refused(Fault),
}

// The contents of a notification.
#[derive(Clone, Copy, PartialEq, Eq)]
enum News {
    Exit,
    Opened,
    Changed,
    Closed,
    Other,
}

// The server's action for a request.
#[derive(Clone, Copy, PartialEq, Eq)]
enum Task {
    Initialize,
    ShutDown,
    Other,
}

fn news_of(method: &str) -> News {
    match method {
        "exit" => News::Exit,
        OPENED => News::Opened,
        CHANGED => News::Changed,
        CLOSED => News::Closed,
        _ => News::Other,
    }
}

fn task_of(method: &str) -> Task {
    match method {
        "initialize" => Task::Initialize,
        "shutdown" => Task::ShutDown,
        _ => Task::Other,
    }
}

// The position encoding of the client.
fn encoding_in(params: &Value) -> Option<Encoding> {
    let offered = params
        .get("capabilities")?
        .get("general")?
        .get("positionEncodings")?
        .as_array()?;
    for it in offered {
        if it.as_str() == Some("utf-8") {
            return Some(Encoding::Utf8);
        }
    }
    None
}

// The capabilities of the server. The error is out of memory.
fn abilities(alloc: Global, encoding: Encoding) -> Result<Value, AllocError> {
    let units = match encoding {
        Encoding::Utf8 => "utf-8",
        Encoding::Utf16 => "utf-16",
    };
    json!(in alloc; {
        "capabilities": {
            "positionEncoding": units,
            "textDocumentSync": {"openClose": true, "change": 2}
        },
        "serverInfo": {"name": "shader-check"}
    })
}

// The error response to a message. The error is out of memory.
fn refused(alloc: Global, fault: Fault) -> Result<Next, AllocError>
    ensures { IfOk result (IsUnder null) }
{
    let id = Value::Null;
    match refusal(alloc, &id, fault) {
        Ok(text) => Ok(Next::Response(text)),
        Err(error) => Err(error),
    }
}

// A notification of the error of a message that has no response.
fn complained(alloc: Global, about: &str, why: &str) -> Result<Next, AllocError>
    ensures { IfOk result IsQuiet }
{
    match complaint(alloc, about, why) {
        Ok(text) => Ok(Next::Notice(text)),
        Err(error) => Err(error),
    }
}

const OPENED: &str = "textDocument/didOpen";

const CHANGED: &str = "textDocument/didChange";

const CLOSED: &str = "textDocument/didClose";

const NO_PARAMETERS: &str = "the parameters are not those of the protocol";

const NOT_OPEN: &str = "the document is not open";

const TOO_MANY: &str = "too many documents are open";

const INITIALIZED: &str = "the server is initialized already";

const SHUT_DOWN: &str = "the server was shut down";

const NO_MESSAGE: &str = "this is no message of JSON-RPC 2.0";

const TOO_LONG: &str = "the message is too long";

// The document identifier in the parameters of a notification.
fn named_in(params: Option<&Value>) -> Option<&Value> {
    params?.get("textDocument")
}

// The opened document. The error is out of memory.
fn opened_in(alloc: Global, params: Option<&Value>) -> Result<Option<Document>, AllocError> {
    match named_in(params) {
        Some(named) => Document::of(alloc, named),
        None => Ok(None),
    }
}

// The document identifier, and the changes.
fn changes_in(params: Option<&Value>) -> Option<(&Value, &Vec<Value>)> {
    let named = named_in(params)?;
    let changes = params?.get("contentChanges")?.as_array()?;
    Some((named, changes))
}

// The index of a document in a list, by its identifier.
fn place_in(documents: &[Document], named: &Value) -> Option<usize>
    ensures { IfSome result (λ at. at < length documents.now) }
{
    place_of(documents, text_at(named, "uri")?)
}

impl Server {
    /// A server before the first message.
    pub fn new(alloc: Global) -> Server {
        Server {
            phase: Phase::New,
            encoding: Encoding::Utf16,
            documents: Vec::new(alloc),
        }
    }

    fn initialize(&mut self, alloc: Global, params: Option<&Value>) -> Result<Reply, AllocError> {
        let Some(params) = params else {
            return Ok(Reply::Refused(Fault::NoParameters));
        };
        if !params.is_object() {
            return Ok(Reply::Refused(Fault::NoParameters));
        }
        self.encoding = encoding_in(params).unwrap_or(Encoding::Utf16);
        let abilities = abilities(alloc, self.encoding)?;
        self.phase = Phase::Running;
        Ok(Reply::Given(abilities))
    }

    // The result of a request.
    fn reply(
        &mut self,
        alloc: Global,
        task: Task,
        params: Option<&Value>,
    ) -> Result<Reply, AllocError> {
        match (self.phase, task) {
            (Phase::New, Task::Initialize) => self.initialize(alloc, params),
            (Phase::New, Task::ShutDown | Task::Other) => Ok(Reply::Refused(Fault::NotInitialized)),
            (Phase::Running, Task::Initialize) => {
                Ok(Reply::Refused(Fault::NoRequest(INITIALIZED)))
            }
            (Phase::Running, Task::ShutDown) => {
                self.phase = Phase::ShutDown;
                Ok(Reply::Given(Value::Null))
            }
            (Phase::Running, Task::Other) => Ok(Reply::Refused(Fault::NoMethod)),
            (Phase::ShutDown, _) => Ok(Reply::Refused(Fault::NoRequest(SHUT_DOWN))),
        }
    }

    // The response to a request.
    fn answer(
        &mut self,
        alloc: Global,
        id: &Value,
        task: Task,
        params: Option<&Value>,
    ) -> Result<Next, AllocError>
        ensures { IfOk result (IsUnder (view id.now)) }
    {
        let text = match self.reply(alloc, task, params) {
            Ok(Reply::Given(given)) => response(alloc, id, given),
            Ok(Reply::Refused(fault)) => refusal(alloc, id, fault),
            Err(error) => Err(error),
        };
        match text {
            Ok(text) => Ok(Next::Response(text)),
            Err(error) => Err(error),
        }
    }

    // Stores an opened document.
    fn keep(&mut self, alloc: Global, document: Document) -> Result<Next, AllocError>
        ensures { IfOk result IsQuiet }
    {
        if let Some(place) = place_of(&self.documents, &document.uri) {
            self.documents[place] = document;
            return Ok(Next::Judge(place));
        }
        if self.documents.len() >= MAX_DOCUMENTS {
            return complained(alloc, OPENED, TOO_MANY);
        }
        self.documents.push(document)?;
        Ok(Next::Judge(self.documents.len() - 1))
    }

    fn open(&mut self, alloc: Global, params: Option<&Value>) -> Result<Next, AllocError>
        ensures { IfOk result IsQuiet }
    {
        match opened_in(alloc, params)? {
            Some(document) => self.keep(alloc, document),
            None => complained(alloc, OPENED, NO_PARAMETERS),
        }
    }

    fn change(&mut self, alloc: Global, params: Option<&Value>) -> Result<Next, AllocError>
        ensures { IfOk result IsQuiet }
    {
        let Some((named, changes)) = changes_in(params) else {
            return complained(alloc, CHANGED, NO_PARAMETERS);
        };
        let Some(place) = place_in(&self.documents, named) else {
            return complained(alloc, CHANGED, NOT_OPEN);
        };
        let document = &mut self.documents[place];
        if !document.change(alloc, self.encoding, changes)? {
            return complained(alloc, CHANGED, NO_PARAMETERS);
        }
        document.version = version_of(named);
        Ok(Next::Judge(place))
    }

    fn close(&mut self, alloc: Global, params: Option<&Value>) -> Result<Next, AllocError>
        ensures { IfOk result IsQuiet }
    {
        let Some(named) = named_in(params) else {
            return complained(alloc, CLOSED, NO_PARAMETERS);
        };
        let Some(place) = place_in(&self.documents, named) else {
            return complained(alloc, CLOSED, NOT_OPEN);
        };
        let text = withdrawn(alloc, &self.documents[place])?;
        self.documents.swap_remove(place);
        Ok(Next::Notice(text))
    }

    // The action after a notification while the server runs.
    fn noticed(
        &mut self,
        alloc: Global,
        news: News,
        params: Option<&Value>,
    ) -> Result<Next, AllocError>
        ensures { IfOk result IsQuiet }
    {
        match news {
            News::Opened => self.open(alloc, params),
            News::Changed => self.change(alloc, params),
            News::Closed => self.close(alloc, params),
            News::Exit | News::Other => Ok(Next::Nothing),
        }
    }

    // The action after a notification.
    fn notified(
        &mut self,
        alloc: Global,
        news: News,
        params: Option<&Value>,
    ) -> Result<Next, AllocError>
        ensures { IfOk result IsSilent }
    {
        if news == News::Exit {
            return Ok(Next::End(self.status()));
        }
        if self.phase != Phase::Running {
            return Ok(Next::Nothing);
        }
        self.noticed(alloc, news, params)
    }

    // The action after a message as a JSON value.
    fn take_value(&mut self, alloc: Global, value: &Value) -> Result<Next, AllocError>
        ensures { IfOk result (Answers (kind_of (view value.now))) }
    {
        match message_of(value) {
            Message::Request { id, method, params } => {
                self.answer(alloc, id, task_of(method), params)
            }
            Message::Notification { method, params } => {
                self.notified(alloc, news_of(method), params)
            }
            Message::Response => Ok(Next::Nothing),
            Message::NoMessage => refused(alloc, Fault::NoRequest(NO_MESSAGE)),
        }
    }

    /// Handles a message, and returns the action. A request has one response, a notification and a response none; anything else
    /// has one with an error and id null. The error is out of memory.
    pub fn take(&mut self, alloc: Global, message: &[u8]) -> Result<Next, AllocError>
        ensures text { IfOk result (λ next. IsUtf8 message.now → Answers (kind_in_text message.now) next) }
        ensures no_text { IfOk result (λ next. ¬ IsUtf8 message.now → IsUnder null next) }
    {
        match Value::from_slice(alloc, message) {
            Ok(value) => self.take_value(alloc, &value),
            Err(error) if error.is_memory() => Err(AllocError),
            Err(_) => refused(alloc, Fault::NoJson),
        }
    }

    /// The response to a message that is too long. The error is out of memory.
    pub fn refuse_long(&self, alloc: Global) -> Result<Next, AllocError>
        ensures { IfOk result (IsUnder null) }
    {
        refused(alloc, Fault::NoRequest(TOO_LONG))
    }

    /// The response to bytes without a header. The error is out of memory.
    pub fn refuse_header(&self, alloc: Global) -> Result<Next, AllocError>
        ensures { IfOk result (IsUnder null) }
    {
        refused(alloc, Fault::NoHeader)
    }

    /// The exit status at the end of the input: 0 after a shutdown request, else 1.
    pub fn status(&self) -> u8 {
        match self.phase {
            Phase::ShutDown => 0,
            Phase::New | Phase::Running => 1,
        }
    }

    /// The document at an index, if it exists.
    pub fn document(&self, place: usize) -> Option<&Document> {
        self.documents.get(place)
    }

    /// The diagnostics notification for the document at an index; nothing if there is none. The error is out of memory.
    pub fn published(
        &self,
        alloc: Global,
        place: usize,
        slip: Option<Slip<'_>>,
    ) -> Result<Option<String>, AllocError> {
        match self.documents.get(place) {
            Some(document) => Ok(Some(published(alloc, self.encoding, document, slip)?)),
            None => Ok(None),
        }
    }
}
