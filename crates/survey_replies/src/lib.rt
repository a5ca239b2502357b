//! What a survey replies, which events a reply records, and the traits of those who give replies.
//!
//! The reply law (`specs/ReplyLaw`) says which reply a request has, by an `Interview`: the questions and answers of a survey.
//! `IsReplyIn` says that a reply is right in a journal, on the events before its last turn: by the law, with certificates that
//! hold, and with its events there. `IsCall` relates what a respondent had seen before a call, the request, the reply and what it
//! has seen after it; all crates above cite it. A run of calls is a `Conversation`. `laws` has what follows: each request has one
//! reply, replies stay right in longer journals, each event belongs to one reply, and eliminations change no reply.
#![tactic(auto)]

pub mod laws;
mod replies;
mod respondent;

pub use replies::{AnswerReply, NextReply, ValuesReply, WithdrawReply};
pub use respondent::{Events, Respondent};
