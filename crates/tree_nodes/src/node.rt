//! Nodes of a tree. What is made of them stands in `specs/Nodes.antt`.

ghost use Rattle.std.specs.Prelude.{◌≡◌};
ghost use Rattle.tree_nodes.specs.declared.node.Body.TheVariants.{File};

use crate::content::Content;
use lb_base::items::Name;

/// What a node is, and what it contains.
#[derive(Drop)]
pub enum Body {
    Directory,
    File(Content),
}

/// A file or a directory.
pub struct Node {
    pub id: u64,
    /// The id of its directory; 0 for the root, which stands in none.
    pub parent: u64,
    pub name: Name,
    /// A file's version, or the count of changes with which a directory's names last changed.
    pub version: u64,
    pub body: Body,
}

impl Drop for Node {
    fn drop(self) {
        let Node {
            id: _id,
            parent: _parent,
            name,
            version: _version,
            body,
        } = self;
        drop(name);
        drop(body);
    }
}

impl Node {
    /// The node with another version.
    pub fn renewed(self, version: u64) -> Node
        ensures { result ≡ record self { version = version } }
    {
        let Node {
            id,
            parent,
            name,
            version: _before,
            body,
        } = self;
        Node {
            id,
            parent,
            name,
            version,
            body,
        }
    }

    /// The node with another version and content, as a file.
    pub fn refilled(self, version: u64, content: Content) -> Node
        ensures { result ≡ record self { version = version; body = File content } }
    {
        let Node {
            id,
            parent,
            name,
            version: _before,
            body: before,
        } = self;
        drop(before);
        Node {
            id,
            parent,
            name,
            version,
            body: Body::File(content),
        }
    }

    /// The node in another directory and under another name.
    pub fn renamed(self, dir: u64, name: Name) -> Node
        ensures { result ≡ record self { parent = dir; name = name } }
    {
        let Node {
            id,
            parent: _from,
            name: before,
            version,
            body,
        } = self;
        drop(before);
        Node {
            id,
            parent: dir,
            name,
            version,
            body,
        }
    }
}
