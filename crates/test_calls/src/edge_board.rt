//! Linked edges that calls operate on.

use crate::lines::{
    AnswerWriter, Answers, CallFault, meaning_of, put_answers, read_number, split_at_space,
};
use crate::marking::Marking;
use edge_links::{Links, Nodes};
use std::alloc::{AllocError, Global};

// A call, without its arguments. It is refused if a node does not exist or there is no room for an edge.
#[derive(Clone, Copy)]
enum Call {
    // `node` adds a node and answers with its number.
    Node,
    // `spare` answers with the number of edges for which there is room.
    Spare,
    // A call on a number.
    Number(NumberCall),
    // `link USER KEY` adds an edge.
    Link,
}

// A call on a number.
#[derive(Clone, Copy)]
enum NumberCall {
    // `reserve N` makes room for edges.
    Reserve,
    // `unsettle NODE` answers with the nodes that were cleared, in order.
    Unsettle,
    // `users NODE` answers with the users of the edges to a node.
    Users,
}

// The words of calls.
const WORDS: &[(&[u8], Call)] = &[
    (b"node", Call::Node),
    (b"spare", Call::Spare),
    (b"link", Call::Link),
    (b"reserve", Call::Number(NumberCall::Reserve)),
    (b"unsettle", Call::Number(NumberCall::Unsettle)),
    (b"users", Call::Number(NumberCall::Users)),
];

// Linked edges.
#[derive(Drop)]
struct Board {
    links: Links,
}

// Returns the answers to calls.
pub(crate) fn edge_answers(alloc: Global, lines: &[u8]) -> Result<Vec<u8>, AllocError> {
    let links = Links::new(alloc);
    let mut out = AnswerWriter::new(alloc);
    put_answers(alloc, &mut Board { links }, lines, &mut out);
    out.into_text()
}

impl Answers for Board {
    fn put_answer(
        &mut self,
        alloc: Global,
        line: &[u8],
        out: &mut AnswerWriter,
    ) -> Result<(), CallFault> {
        let (word, arguments) = split_at_space(line);
        match meaning_of(WORDS, word) {
            Some(Call::Node) => out.put_count(self.links.add_node(alloc)?, b"\n"),
            Some(Call::Spare) => out.put_count(self.links.spare(), b"\n"),
            Some(Call::Link) => return self.put_link(arguments, out),
            Some(Call::Number(call)) => {
                let number = read_number(arguments)?;
                self.put_number_call(alloc, call, number, out);
            }
            None => return Err(CallFault::BadCall),
        }
        Ok(())
    }
}

impl Board {
    // Reads two nodes and links them.
    fn put_link(&mut self, nodes: &[u8], out: &mut AnswerWriter) -> Result<(), CallFault> {
        let (user, key) = split_at_space(nodes);
        let answer = self.link(read_number(user)?, read_number(key)?);
        out.put_line(answer);
        Ok(())
    }

    // Appends the answer to a call on a number.
    fn put_number_call(
        &mut self,
        alloc: Global,
        call: NumberCall,
        number: usize,
        out: &mut AnswerWriter,
    ) {
        match call {
            NumberCall::Reserve => {
                out.note(self.links.reserve_edges(alloc, number));
                out.put_line(b"ok");
            }
            NumberCall::Unsettle => put_outcome(self.unsettle(alloc, number), out),
            NumberCall::Users => put_outcome(self.users(alloc, number), out),
        }
    }

    // Links two nodes, if they exist and there is room for an edge.
    fn link(&mut self, user: usize, key: usize) -> &'static [u8] {
        let nodes = self.links.node_count();
        if user >= nodes || key >= nodes || self.links.spare() == 0 {
            return b"refused";
        }
        self.links.link(user, key);
        b"ok"
    }

    // Unsettles a node, if it exists, and returns the nodes that were cleared.
    fn unsettle(&mut self, alloc: Global, key: usize) -> Result<Option<Nodes>, AllocError> {
        let nodes = self.links.node_count();
        if key >= nodes {
            return Ok(None);
        }
        let mut marking = Marking::on(alloc, nodes)?;
        self.links.unsettle(key, &mut marking);
        Ok(Some(marking.cleared(alloc)?))
    }

    // Returns the users of the edges to a node, if it exists.
    fn users(&self, alloc: Global, key: usize) -> Result<Option<Nodes>, AllocError> {
        if key >= self.links.node_count() {
            return Ok(None);
        }
        Ok(Some(self.links.edges_into(alloc, key)?))
    }
}

// Appends the numbers of nodes, or that the call for them was refused.
fn put_outcome(outcome: Result<Option<Nodes>, AllocError>, out: &mut AnswerWriter) {
    match outcome {
        Ok(Some(nodes)) => put_nodes(nodes.as_slice(), out),
        Ok(None) => out.put_line(b"refused"),
        Err(AllocError) => out.leave_out(),
    }
}

// Appends the numbers of nodes, or `none`.
fn put_nodes(nodes: &[usize], out: &mut AnswerWriter) {
    let Some((first, rest)) = nodes.split_first() else {
        return out.put_line(b"none");
    };
    out.put_number(*first);
    for node in rest {
        out.put(b" ");
        out.put_number(*node);
    }
    out.put(b"\n");
}
