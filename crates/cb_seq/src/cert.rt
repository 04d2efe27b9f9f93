//! Certificates.

use crate::rule::Rule;
use std::marker::Model;

/// A proof: a rule, and a certificate for each of its premises in order. Contracts see a plain tree.
#[derive(Drop)]
pub struct Cert {
    pub rule: Rule,
    pub children: Vec<Cert>,
}

impl Model for Cert {
    ghost use Rattle.cb_seq.specs.Tree.{CertTree, Node, certs_of};
    ghost use Rattle.cb_seq.specs.Codes.{coded_cert};

    ghost Value = { CertTree };

    ghost coded = { coded_cert };

    ghost view = { λ c. Node c.rule (certs_of c.children.items) };

    ghost use Rattle.cb_seq.specs.Size.{cert_nodes, cert_falls};

    ghost size = { cert_nodes };

    ghost size_decreases = { λ a h. cert_falls a.rule a.children.items };
}
